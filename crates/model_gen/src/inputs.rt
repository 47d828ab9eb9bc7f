ghost use Rattle.std.specs.Prelude.{◌≡◌, ◌≤◌, IfOk};
ghost use Rattle.model_gen.specs.Fixed.{declarations, specifications, script};
ghost use Rattle.model_gen.specs.Made.{made_inputs, model};

use crate::texts::{DECLARATIONS, FOOT, HEAD, SCRIPT, SPECIFICATIONS};
use crate::walls::push_walls;
use ifc_base::{Bytes, Memory};
use report_text::push_text;
use std::alloc::Global;

/// The most walls that a model is made of.
pub const MOST_WALLS: u32 = 100_000;

/// The four inputs of a run, each as the bytes of its file.
#[derive(Debug, Drop)]
pub struct Inputs {
    /// Declarations of a schema, in EXPRESS.
    pub declarations: Bytes,
    /// Specifications, in JSON.
    pub specs: Bytes,
    /// The model, an exchange file of ISO 10303-21.
    pub model: Bytes,
    /// The lines of the script.
    pub script: Bytes,
}

/// The inputs that are made from this number with so many walls, from 1 to `MOST_WALLS`. The number and
/// the count come into the model alone: wall `k`, from 1, has four instances of the ids `10 * k` to
/// `10 * k + 3`, and one wall in 500 has a fire rating that the specification doesn't admit; the number
/// says which. The only refusal is want of memory.
///
/// `O(n)` time and memory for n walls: some 250 bytes a wall, in a buffer that grows.
pub fn generate(alloc: Global, number: u64, count: u32) -> Result<Inputs, Memory>
    requires least { 1 ≤ count }
    requires most { count ≤ MOST_WALLS }
    ensures { IfOk result (λ made. made ≡ made_inputs number count) }
{
    Ok(Inputs {
        declarations: made_declarations(alloc)?,
        specs: made_specs(alloc)?,
        model: made_model(alloc, number, count)?,
        script: made_script(alloc)?,
    })
}

fn made_declarations(alloc: Global) -> Result<Bytes, Memory>
    ensures { IfOk result (λ bytes. bytes ≡ declarations) }
{
    bytes_of(alloc, DECLARATIONS)
}

fn made_specs(alloc: Global) -> Result<Bytes, Memory>
    ensures { IfOk result (λ bytes. bytes ≡ specifications) }
{
    bytes_of(alloc, SPECIFICATIONS)
}

fn made_script(alloc: Global) -> Result<Bytes, Memory>
    ensures { IfOk result (λ bytes. bytes ≡ script) }
{
    bytes_of(alloc, SCRIPT)
}

fn bytes_of(alloc: Global, text: &str) -> Result<Bytes, Memory>
    ensures { IfOk result (λ bytes. bytes ≡ text.now) }
{
    let mut out = Vec::new(alloc);
    push_text(&mut out, text)?;
    Ok(Bytes::from_vec(out))
}

fn made_model(alloc: Global, number: u64, count: u32) -> Result<Bytes, Memory>
    ensures { IfOk result (λ bytes. bytes ≡ model number count) }
{
    let mut out = Vec::new(alloc);
    push_text(&mut out, HEAD)?;
    push_walls(&mut out, number, count)?;
    push_text(&mut out, FOOT)?;
    Ok(Bytes::from_vec(out))
}
