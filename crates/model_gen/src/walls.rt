ghost use Rattle.std.specs.Prelude.{◌≡◌, ◌++◌, OnOk};
ghost use Rattle.model_gen.specs.Made.{rating, wall_line, property_line, set_line, relationship_line, wall_lines, walls};

use ifc_base::Memory;
use report_text::{push_decimal, push_text};

/// One wall in so many has the lower fire rating.
const ONE_IN: u64 = 500;

/// Appends the lines of the walls from 1 to `count`.
pub(crate) fn push_walls(out: &mut Vec<u8>, number: u64, count: u32) -> Result<(), Memory>
    ensures { OnOk result (out.new.items ≡ out.old.items ++ walls number count) }
{
    for before in 0..count {
        push_wall(out, number, before + 1)?;
    }
    Ok(())
}

/// Appends the four lines of this wall.
fn push_wall(out: &mut Vec<u8>, number: u64, wall: u32) -> Result<(), Memory>
    ensures { OnOk result (out.new.items ≡ out.old.items ++ wall_lines number wall) }
{
    push_wall_line(out, wall)?;
    push_property_line(out, number, wall)?;
    push_set_line(out, wall)?;
    push_relationship_line(out, wall)
}

fn push_wall_line(out: &mut Vec<u8>, wall: u32) -> Result<(), Memory>
    ensures { OnOk result (out.new.items ≡ out.old.items ++ wall_line wall) }
{
    let wall = u64::from(wall);
    push_text(out, "#")?;
    push_decimal(out, 10 * wall)?;
    push_text(out, "=IFCWALL('")?;
    push_decimal(out, wall)?;
    push_text(out, "',$,'W")?;
    push_decimal(out, wall)?;
    push_text(out, "',$,$,$,$,$,$);\n")
}

fn push_property_line(out: &mut Vec<u8>, number: u64, wall: u32) -> Result<(), Memory>
    ensures { OnOk result (out.new.items ≡ out.old.items ++ property_line number wall) }
{
    push_text(out, "#")?;
    push_decimal(out, 10 * u64::from(wall) + 1)?;
    push_text(out, "=IFCPROPERTYSINGLEVALUE('FireRating',$,IFCLABEL('")?;
    push_text(out, fire_rating(number, wall))?;
    push_text(out, "'),$);\n")
}

/// Appends the line of the set of the wall's one property.
fn push_set_line(out: &mut Vec<u8>, wall: u32) -> Result<(), Memory>
    ensures { OnOk result (out.new.items ≡ out.old.items ++ set_line wall) }
{
    let wall = u64::from(wall);
    push_text(out, "#")?;
    push_decimal(out, 10 * wall + 2)?;
    push_text(out, "=IFCPROPERTYSET('")?;
    push_decimal(out, wall)?;
    push_text(out, "',$,'Pset_WallCommon',$,(#")?;
    push_decimal(out, 10 * wall + 1)?;
    push_text(out, "));\n")
}

/// Appends the line of the relationship that gives the set to the wall.
fn push_relationship_line(out: &mut Vec<u8>, wall: u32) -> Result<(), Memory>
    ensures { OnOk result (out.new.items ≡ out.old.items ++ relationship_line wall) }
{
    let wall = u64::from(wall);
    push_text(out, "#")?;
    push_decimal(out, 10 * wall + 3)?;
    push_text(out, "=IFCRELDEFINESBYPROPERTIES('")?;
    push_decimal(out, wall)?;
    push_text(out, "',$,$,$,(#")?;
    push_decimal(out, 10 * wall)?;
    push_text(out, "),#")?;
    push_decimal(out, 10 * wall + 2)?;
    push_text(out, ");\n")
}

fn fire_rating(number: u64, wall: u32) -> &'static str
    ensures { result.now ≡ rating number wall }
{
    if (u64::from(wall) + number % ONE_IN) % ONE_IN == 0 {
        "REI30"
    } else {
        "REI60"
    }
}
