ghost use Rattle.std.specs.Prelude.{◌≡◌, length};
ghost use Rattle.ifc_base.specs.Ids.{HasDistinctIds};

use crate::fixtures::{file, schema, specifications};
use crate::rows::fault_text;
use audit_core::{Core, ModelFault};
use audit_model::Limits;
use ifc_base::{Memory, Refusal};
use p21_read::P21File;
use std::alloc::Global;
use std::process::Abort;
use std::test::Fail;

/// The schema that a file names, its instances 10 and 11, and why it is refused; nothing where it is taken.
const ROWS: [[&str; 4]; 8] = [
    [
        "IFC4",
        "#10=IFCWALL('a',$,'W01',$,$,$,$,$,$);",
        "#11=IFCGROUP('g',$,$,$,$);",
        "",
    ],
    // A reference to an instance that is missing is taken in a file.
    [
        "IFC4",
        "#10=IFCWALL('a',$,'W01',$,$,$,$,$,$);",
        "#11=IFCRELDEFINESBYTYPE('t',$,$,$,(#10),#99);",
        "",
    ],
    // The schema comes before the instances.
    [
        "IFC2X3",
        "#10=IFCDOOR();",
        "#11=IFCROOT('g',$,$,$);",
        "schema",
    ],
    [
        "",
        "#10=IFCGROUP('g',$,$,$,$);",
        "#11=IFCGROUP('h',$,$,$,$);",
        "schema",
    ],
    // The least id comes first, whatever the order of the file is.
    [
        "IFC4",
        "#10=IFCGROUP('g');",
        "#11=IFCROOT('g',$,$,$);",
        "#10 count 1 5",
    ],
    [
        "IFC4",
        "#10=IFCGROUP('g',$,$,$,$);",
        "#11=IFCROOT('g',$,$,$);",
        "#11 abstract IFCROOT",
    ],
    [
        "IFC4",
        "#10=IFCSIUNIT(1,.LENGTHUNIT.,$,.METRE.);",
        "#11=IFCDOOR();",
        "#10 derived 1",
    ],
    [
        "IFC4",
        "#10=IFCSIUNIT(*,.LENGTHUNIT.,$,.METRE.);",
        "#11=IFCDOOR();",
        "#11 unknown IFCDOOR",
    ],
];

const LIMITS: Limits = Limits {
    steps: 1,
    revisions: 1,
    instances: 2,
};

/// Why a core refuses the model of the file, if it does.
fn fault_of(alloc: Global, file: P21File) -> Result<Option<ModelFault>, Fail>
    requires distinct { HasDistinctIds file.instances }
    requires two { length file.instances ≡ 2 }
{
    let schema = schema(alloc)?;
    let specs = specifications(alloc)?;
    match Core::new(alloc, &schema, &specs, file, LIMITS) {
        Ok(core) => {
            core.into_journal();
            Ok(None)
        }
        Err(Refusal::Fault(fault)) => Ok(Some(fault)),
        Err(Refusal::Memory) => Err(Fail::from(Memory)),
    }
}

/// Why a model is refused, in words; nothing where it is taken.
fn told(alloc: Global, fault: &Option<ModelFault>) -> Result<String, Memory> {
    match fault {
        None => Ok(String::new(alloc)),
        Some(ModelFault::OtherSchema) => Ok(format!(in alloc; "schema")?),
        Some(ModelFault::Instance { id, fault }) => {
            let why = fault_text(alloc, fault)?;
            Ok(format!(in alloc; "#{} {}", id.get(), why.as_str())?)
        }
    }
}

#[test]
fn models_are_judged(rt: HostRuntime) -> Result<(), Fail> {
    let alloc = rt.alloc();
    for [schema_id, ten, eleven, wanted] in ROWS {
        let fault = fault_of(alloc, file(alloc, schema_id, ten, eleven)?)?;
        assert_eq!(rt; told(alloc, &fault)?.as_str(), wanted);
    }
    Ok(())
}
