use crate::faults::expect_fault;
use crate::values::show_instance;
use p21_read::{P21Cause, P21Cause as Why, P21File, read_file};
use std::alloc::Global;
use std::test::Fail;

/// Two walls, in lines 8 and 9.
const WALLS: &str = "ISO-10303-21;
HEADER;
FILE_DESCRIPTION((''),'2;1');
FILE_NAME('','',(''),(''),'','','');
FILE_SCHEMA(('IFC4'));
ENDSEC;
DATA;
#10=IFCWALL('a',$,'W01',$,$,$,$,$,$);
#11=IFCWALL('b',$,'W02',$,$,$,$,$,$);
ENDSEC;
END-ISO-10303-21;
";

/// Header and trailer of files of one line, between whose parts each case stands.
const HEADER: &str =
    "ISO-10303-21;HEADER;FILE_DESCRIPTION((''),'2;1');FILE_NAME('','',(''),(''),'','','');FILE_SCHEMA(('IFC4'));ENDSEC;";

/// A header up to its third entity.
const FRONT: &str = "ISO-10303-21;HEADER;FILE_DESCRIPTION();FILE_NAME();FILE_SCHEMA();";

const TRAILER: &str = "ENDSEC;END-ISO-10303-21;";

/// A model with walls, types, relations, quantities, materials and classifications.
const MODEL: &str = "ISO-10303-21;
HEADER;
FILE_DESCRIPTION(('ViewDefinition [ReferenceView]'),'2;1');
FILE_NAME('demo.ifc','2024-05-01T10:00:00',(''),(''),'','','');
FILE_SCHEMA(('IFC4'));
ENDSEC;
DATA;
#1=IFCPERSON($,'Doe',$,$,$,$,$,$);
#2=IFCORGANIZATION($,'Office',$,$,$);
#3=IFCPERSONANDORGANIZATION(#1,#2,$);
#4=IFCAPPLICATION(#2,'1.0','Modeller','MOD');
#5=IFCOWNERHISTORY(#3,#4,$,.NOCHANGE.,$,$,$,1714557600);
#6=IFCSIUNIT(*,.LENGTHUNIT.,$,.METRE.);
#7=IFCUNITASSIGNMENT((#6));
#8=IFCPROJECT('0000000000000000000008',#5,'Demo',$,$,$,$,$,#7);
#9=IFCBUILDINGSTOREY('0000000000000000000009',#5,'Ground',$,$,$,$,$,.ELEMENT.,0.);
#10=IFCWALL('0000000000000000000010',#5,'W01',$,$,$,$,'T1',.SOLIDWALL.);
#11=IFCWALL('0000000000000000000011',#5,'W011',$,$,$,$,'',.NOTDEFINED.);
#12=IFCWALLTYPE('0000000000000000000012',#5,'Type A',$,$,(#20),$,$,$,.PARTITIONING.);
#13=IFCRELDEFINESBYTYPE('0000000000000000000013',#5,$,$,(#10,#11),#12);
#14=IFCRELAGGREGATES('0000000000000000000014',#5,$,$,#8,(#9));
#15=IFCRELCONTAINEDINSPATIALSTRUCTURE('0000000000000000000015',#5,$,$,(#10),#9);
#20=IFCPROPERTYSET('0000000000000000000020',#5,'Pset_WallCommon',$,(#21,#22));
#21=IFCPROPERTYSINGLEVALUE('FireRating',$,IFCLABEL('REI60'),$);
#22=IFCPROPERTYSINGLEVALUE('IsExternal',$,IFCBOOLEAN(.F.),$);
#23=IFCELEMENTQUANTITY('0000000000000000000023',#5,'Qto_WallBaseQuantities',$,$,(#24));
#24=IFCQUANTITYLENGTH('Length',$,$,42.000042,$);
#25=IFCRELDEFINESBYPROPERTIES('0000000000000000000025',#5,$,$,(#10),#23);
#26=IFCMATERIAL('Concrete',$,$);
#27=IFCMATERIALLAYER(#26,0.2,$,$,$,$,$);
#28=IFCMATERIALLAYERSET((#27),'Solid 200',$);
#29=IFCMATERIALLAYERSETUSAGE(#28,.AXIS2.,.POSITIVE.,-0.1,$);
#30=IFCRELASSOCIATESMATERIAL('0000000000000000000030',#5,$,$,(#10),#29);
#31=IFCCLASSIFICATION($,$,$,'Uniclass 2015',$,$,$);
#32=IFCCLASSIFICATIONREFERENCE($,'EF_25',$,#31,$,$);
#33=IFCCLASSIFICATIONREFERENCE($,'EF_25_10',$,#32,$,$);
#34=IFCRELASSOCIATESCLASSIFICATION('0000000000000000000034',#5,$,$,(#10),#33);
ENDSEC;
END-ISO-10303-21;
";

/// The schema id and the ids of the instances, one after another.
fn show_file(alloc: Global, file: &P21File) -> Result<String, Fail> {
    let mut out = String::from_str(alloc, file.schema_id.as_str())?;
    for instance in file.instances.as_slice() {
        out.push_str(format!(in alloc; " {}", instance.id.get())?.as_str())?;
    }
    Ok(out)
}

fn expect_file(alloc: Global, text: &str, wanted: &str) -> Result<(), Fail> {
    match read_file(alloc, text.as_bytes(), 100) {
        Ok(file) => {
            let found = show_file(alloc, &file)?;
            if found.as_str() == wanted {
                return Ok(());
            }
            Err(format!(in alloc; "{} in place of {wanted}", found.as_str())?.into())
        }
        Err(_) => Err(format!(in alloc; "refused: {text}")?.into()),
    }
}

/// The model's 30 instances, in their order.
#[test]
fn a_model_is_read(rt: HostRuntime) -> Result<(), Fail> {
    let wanted =
        "IFC4 1 2 3 4 5 6 7 8 9 10 11 12 13 14 15 20 21 22 23 24 25 26 27 28 29 30 31 32 33 34";
    expect_file(rt.alloc(), MODEL, wanted)
}

/// Some of the model's instances, whole.
#[test]
fn instances_of_a_model(rt: HostRuntime) -> Result<(), Fail> {
    let cases = [
        (
            4,
            "#5=IFCOWNERHISTORY(#3,#4,$,.NOCHANGE.,$,$,$,1714557600,)",
        ),
        (5, "#6=IFCSIUNIT(*,.LENGTHUNIT.,$,.METRE.,)"),
        (
            16,
            "#21=IFCPROPERTYSINGLEVALUE('FireRating',$,IFCLABEL['REI60'],$,)",
        ),
        (
            19,
            "#24=IFCQUANTITYLENGTH('Length',$,$,42000042000000000u,$,)",
        ),
        (
            24,
            "#29=IFCMATERIALLAYERSETUSAGE(#28,.AXIS2.,.POSITIVE.,-100000000000000u,$,)",
        ),
        (
            12,
            "#13=IFCRELDEFINESBYTYPE('0000000000000000000013',#5,$,$,(#10,#11,),#12,)",
        ),
    ];
    match read_file(rt.alloc(), MODEL.as_bytes(), 30) {
        Ok(file) => {
            for (at, wanted) in cases {
                let mut out = String::new(rt.alloc());
                if let Some(instance) = file.instances.as_slice().get(at) {
                    show_instance(rt.alloc(), instance, &mut out)?;
                }
                assert_eq!(rt; out.as_str(), wanted);
            }
            Ok(())
        }
        Err(_) => Err("the model is refused".into()),
    }
}

/// A file without its last line feed is read; a shorter front of it is refused.
#[test]
fn cut_models(rt: HostRuntime) -> Result<(), Fail> {
    let bytes = WALLS.as_bytes();
    for length in 0..bytes.len() {
        let is_read = read_file(rt.alloc(), &bytes[..length], 2).is_ok();
        assert_eq!(rt; is_read, length + 1 == bytes.len(), "{length}");
    }
    let cases: [(usize, u32, P21Cause); 7] = [
        (0, 1, Why::NoEnd),
        (184, 9, Why::Unclosed),
        (202, 10, Why::NoEnd),
        (207, 10, Why::BadToken),
        (208, 10, Why::NoEnd),
        (225, 11, Why::BadToken),
        (226, 11, Why::NoEnd),
    ];
    for (length, line, why) in cases {
        if let Some(front) = bytes.get(..length) {
            expect_fault(rt.alloc(), read_file(rt.alloc(), front, 2).err(), line, why)?;
        }
    }
    expect_fault(
        rt.alloc(),
        read_file(rt.alloc(), bytes, 1).err(),
        9,
        Why::TooManyInstances,
    )?;
    expect_fault(
        rt.alloc(),
        read_file(rt.alloc(), bytes, 0).err(),
        8,
        Why::TooManyInstances,
    )
}

#[test]
fn sections(rt: HostRuntime) -> Result<(), Fail> {
    let cases: [(&str, &str); 13] = [
        ("DATA;", "IFC4"),
        ("DATA((((((((((((((((( 1 )))))))))))))))));", "IFC4"),
        ("DATA;#1=A();", "IFC4 1"),
        ("DATA;#2=A();ENDSEC;DATA;#1=B();", "IFC4 2 1"),
        (
            "DATA(('X'),#1,2.);#2=A();ENDSEC;DATA ( ) ;#1=A();",
            "IFC4 2 1",
        ),
        (" /*a*/ DATA /*b*/ ; /*c*/ #1=A(); /*d*/ ", "IFC4 1"),
        ("DATA;#1=DATA();#2=ENDSEC();", "IFC4 1 2"),
        ("DATA;#2147483647=A(#2147483647);", "IFC4 2147483647"),
        ("DATA;/* ENDSEC; #1=A(); \u{e9} */", "IFC4"),
        ("DATA;#1=A('ENDSEC;');", "IFC4 1"),
        ("DATA;#3=A(#9);#1=A();#2=A();", "IFC4 3 1 2"),
        ("\r\nDATA;\r\n#1=A(\r\n);\r\n", "IFC4 1"),
        ("DATA;#0001=A();", "IFC4 1"),
    ];
    for (sections, wanted) in cases {
        let text = format!(in rt.alloc(); "{HEADER}{sections}{TRAILER}")?;
        expect_file(rt.alloc(), text.as_str(), wanted)?;
        // What follows the last word isn't looked at.
        let more = format!(in rt.alloc(); "{} '\\Q (", text.as_str())?;
        expect_file(rt.alloc(), more.as_str(), wanted)?;
    }
    Ok(())
}

/// The schema id is the first text of the list, in capitals, up to its first space.
#[test]
fn schema_ids(rt: HostRuntime) -> Result<(), Fail> {
    let cases: [(&str, &str); 10] = [
        ("FILE_SCHEMA(('ifc4 { 1 0 }','IFC2X3'));", "IFC4"),
        ("FILE_SCHEMA((1,$,'ifc2x3'));", "IFC2X3"),
        ("FILE_SCHEMA((('a'),B('b'),'c'));", "C"),
        ("FILE_SCHEMA(());", ""),
        ("FILE_SCHEMA();", ""),
        ("FILE_SCHEMA('IFC4');", ""),
        ("FILE_SCHEMA((' IFC4'));", ""),
        ("FILE_SCHEMA((''),('IFC4'));", ""),
        (
            "file_schema(('IFC4X3'),2);FILE_POPULATION('a');further(('b'),$);",
            "IFC4X3",
        ),
        (
            "FILE_SCHEMA(('IFC4'));FILE_NAME();endsec();DATA(1);",
            "IFC4",
        ),
    ];
    for (schema, wanted) in cases {
        let text = format!(in rt.alloc();
            "ISO-10303-21;HEADER;FILE_DESCRIPTION();FILE_NAME();{schema}ENDSEC;DATA;{TRAILER}"
        )?;
        expect_file(rt.alloc(), text.as_str(), wanted)?;
    }
    Ok(())
}

/// The file has this fault. The sections begin in line 2, behind the header; then comes the trailer.
fn expect_sections_fault(
    alloc: Global,
    sections: &str,
    line: u32,
    why: P21Cause,
) -> Result<(), Fail> {
    let text = format!(in alloc; "{HEADER}\n{sections}{TRAILER}")?;
    let found = read_file(alloc, text.as_str().as_bytes(), 2);
    expect_fault(alloc, found.err(), line, why)
}

/// Which section stands there.
#[test]
fn faults_of_section_words(rt: HostRuntime) -> Result<(), Fail> {
    let cases: [(&str, u32, P21Cause); 10] = [
        ("", 2, Why::BadToken),
        ("DATA;\nENDSEC;\nANCHOR;", 4, Why::OtherSection),
        ("ANCHOR;", 2, Why::OtherSection),
        ("\nREFERENCE;", 3, Why::OtherSection),
        ("DATA;ENDSEC;SIGNATURE;", 2, Why::OtherSection),
        ("anchor;", 2, Why::BadToken),
        ("data;", 2, Why::BadToken),
        ("HEADER;", 2, Why::BadToken),
        ("DATA;\nANCHOR;", 3, Why::BadToken),
        ("DATA;endsec;", 2, Why::BadToken),
    ];
    for (sections, line, why) in cases {
        expect_sections_fault(rt.alloc(), sections, line, why)?;
    }
    Ok(())
}

/// What stands in a section.
#[test]
fn faults_of_sections(rt: HostRuntime) -> Result<(), Fail> {
    let cases: [(&str, u32, P21Cause); 18] = [
        ("DATA;\n#1=A();\n#1=A();\n", 4, Why::IdTwice),
        ("DATA;\n#1=A();ENDSEC;DATA;\n#001=B();", 4, Why::IdTwice),
        ("DATA;#1=A();#2=A();\n#3=A();", 3, Why::TooManyInstances),
        // For one instance: its tokens, its ids, that of another, the number of all.
        ("DATA;#1=A();#2=A();\n#1=A();", 3, Why::IdTwice),
        ("DATA;#1=A();#2=A();\n#1=A(\n#0);", 4, Why::IdRange),
        ("DATA;#1=A();#2=A();\n#1=A(\n#0,\n?);", 5, Why::BadToken),
        ("DATA;#1=A(\n#0);\n?", 3, Why::IdRange),
        ("DATA;\n#0=A();", 3, Why::IdRange),
        ("DATA;\n#2147483648=A();", 3, Why::IdRange),
        ("DATA(1,\n#0\n);", 3, Why::IdRange),
        (
            "DATA(\n(((((((((((((((((1)))))))))))))))));",
            3,
            Why::TooDeep,
        ),
        ("DATA;\n#1=(A()B());", 3, Why::ComplexInstance),
        ("DATA;\n'\\Q'", 3, Why::BadDirective),
        ("DATA;\n'\\PB\\'", 3, Why::OtherPage),
        ("DATA;\n\"4\"", 3, Why::BadToken),
        ("DATA;#1=A('\n", 2, Why::Unclosed),
        ("DATA;/*\n", 2, Why::Unclosed),
        ("DATA;#1=A(B(1,\n2));", 2, Why::BadToken),
    ];
    for (sections, line, why) in cases {
        expect_sections_fault(rt.alloc(), sections, line, why)?;
    }
    Ok(())
}

#[test]
fn faults_of_headers(rt: HostRuntime) -> Result<(), Fail> {
    let cases: [(&str, u32, P21Cause); 11] = [
        ("iso-10303-21;", 1, Why::BadToken),
        ("\nISO-10303-22;", 2, Why::BadToken),
        ("\u{feff}ISO-10303-21;", 1, Why::BadToken),
        ("ISO-10303-21\n", 2, Why::NoEnd),
        ("ISO-10303-21;\nheader;", 2, Why::BadToken),
        ("ISO-10303-21;\nANCHOR;", 2, Why::OtherSection),
        ("ISO-10303-21;HEADER;\nFILE_NAME();", 2, Why::BadToken),
        ("ISO-10303-21;HEADER;\nENDSEC;", 2, Why::BadToken),
        (
            "ISO-10303-21;HEADER;FILE_DESCRIPTION();\nFILE_SCHEMA();",
            2,
            Why::BadToken,
        ),
        (
            "ISO-10303-21;HEADER;FILE_DESCRIPTION(\n#0,\n#0);?",
            2,
            Why::IdRange,
        ),
        (
            "ISO-10303-21;HEADER;FILE_DESCRIPTION(\n#0,\n?);",
            3,
            Why::BadToken,
        ),
    ];
    for (text, line, why) in cases {
        let found = read_file(rt.alloc(), text.as_bytes(), 2);
        expect_fault(rt.alloc(), found.err(), line, why)?;
    }
    Ok(())
}

/// Each case begins in line 2, behind the three entities that a header must have.
#[test]
fn faults_behind_the_schema(rt: HostRuntime) -> Result<(), Fail> {
    let cases: [(&str, u32, P21Cause); 4] = [
        ("DATA;", 2, Why::BadToken),
        ("A-B();", 2, Why::BadToken),
        ("A(\n(1,\n", 3, Why::Unclosed),
        ("ENDSEC;DATA;ENDSEC;\nEND-ISO-10303-2;", 3, Why::BadToken),
    ];
    for (rest, line, why) in cases {
        let text = format!(in rt.alloc(); "{FRONT}\n{rest}")?;
        let found = read_file(rt.alloc(), text.as_str().as_bytes(), 2);
        expect_fault(rt.alloc(), found.err(), line, why)?;
    }
    Ok(())
}
