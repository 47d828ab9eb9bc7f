use express_decl::{DeclCause, read_declarations};
use ifc_base::Refusal;
use std::alloc::{AllocError, Global};
use std::test::Fail;

/// Adds the text so many times.
fn repeat(out: &mut String, text: &str, times: usize) -> Result<(), AllocError> {
    for _ in 0..times {
        out.push_str(text)?;
    }
    Ok(())
}

/// An entity of the size that is usual in IFC4, with every section.
const ENTITY: &str = "
ENTITY IfcRelSpaceBoundary1stLevel
 SUPERTYPE OF (ONEOF
    (IfcRelSpaceBoundary2ndLevel))
 SUBTYPE OF (IfcRelSpaceBoundary);
    RelatingSpace : IfcSpaceBoundarySelect;
    RelatedBuildingElement : OPTIONAL IfcElement;
    ParentBoundary : OPTIONAL IfcRelSpaceBoundary1stLevel;
    SELF\\IfcRelationship.Name : IfcLabel;
 DERIVE
    SELF\\IfcSIUnit.Dimensions : IfcDimensionalExponents := IfcDimensionsForSiUnit (SELF.Name);
 INVERSE
    InnerBoundaries : SET [0:?] OF IfcRelSpaceBoundary1stLevel FOR ParentBoundary;
 WHERE
    CorrectPhysOrVirt : ('IFC4.IFCVIRTUALELEMENT' IN TYPEOF(RelatedBuildingElement)) OR (NOT EXISTS(RelatingSpace));
END_ENTITY;
";

const TYPE: &str = "
TYPE IfcPHMeasure = REAL;
 WHERE
    WR21 : {0.0 <= SELF <= 14.0};
END_TYPE;
";

const FUNCTION: &str = "
FUNCTION IfcBaseAxis (Dim : INTEGER; Axis : LIST [0:3] OF IfcDirection) : LIST [2:3] OF IfcDirection;
LOCAL
    U : LIST [2:3] OF IfcDirection;
END_LOCAL;
    IF (Dim = 3) THEN
        Third := NVL(IfcNormalise(Axis[3]), IfcDirection([0.0,0.0,1.0])); -- the third
        REPEAT i := 1 TO 3;
            U := [IfcFirstProjAxis(Third,Axis[1])];
        END_REPEAT;
    END_IF;
    RETURN(U);
END_FUNCTION;
";

/// So many entities, types and functions as IFC4 has, in more bytes.
#[test]
fn schema_of_the_size_of_ifc4(rt: HostRuntime) -> Result<(), Fail> {
    let mut text = String::from_str(rt.alloc(), "SCHEMA IFC4;\n")?;
    repeat(&mut text, TYPE, 397)?;
    repeat(&mut text, ENTITY, 776)?;
    repeat(&mut text, FUNCTION, 45)?;
    text.push_str("END_SCHEMA;\n")?;
    assert!(rt; text.len() > 500_000);
    match read_declarations(rt.alloc(), text.as_bytes()) {
        Ok(decls) => {
            assert_eq!(rt; decls.types.as_slice().len(), 397);
            assert_eq!(rt; decls.entities.as_slice().len(), 776);
            for entity in decls.entities.as_slice() {
                assert_eq!(rt; entity.own.as_slice().len(), 3);
                assert_eq!(rt; entity.derived.as_slice().len(), 1);
            }
        }
        Err(_) => panic!(rt; "not read"),
    }
    Ok(())
}

/// A schema with one entity, and the opening so many times before what it is about, and the closing as often behind.
fn nested(
    alloc: Global,
    head: &str,
    opening: &str,
    closing: &str,
    depth: usize,
) -> Result<String, AllocError> {
    let mut text = String::from_str(alloc, "SCHEMA s;\nENTITY a ")?;
    text.push_str(head)?;
    repeat(&mut text, opening, depth)?;
    repeat(&mut text, closing, depth)?;
    text.push_str("; END_ENTITY; END_SCHEMA;")?;
    Ok(text)
}

#[test]
fn nesting_has_no_limit(rt: HostRuntime) -> Result<(), Fail> {
    for (head, opening, closing) in [("", "(*", "*)"), ("SUPERTYPE OF ", "(", ")")] {
        let text = nested(rt.alloc(), head, opening, closing, 200_000)?;
        match read_declarations(rt.alloc(), text.as_bytes()) {
            Ok(decls) => assert_eq!(rt; decls.entities.as_slice().len(), 1),
            Err(_) => panic!(rt; "not read"),
        }
    }
    let open = nested(rt.alloc(), "", "\n(*", "*", 200_000)?;
    match read_declarations(rt.alloc(), open.as_bytes()) {
        Err(Refusal::Fault(fault)) => {
            assert_eq!(rt; fault.why, DeclCause::Unclosed);
            assert_eq!(rt; fault.line, 200_002);
        }
        _ => panic!(rt; "no fault"),
    }
    Ok(())
}
