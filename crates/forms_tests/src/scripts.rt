use audit_model::{Act, Edit, Phases};
use ifc_base::Refusal;
use narrow_forms::read_script;
use std::alloc::Global;
use std::test::Fail;

/// What is taken.
const TAKEN: [&str; 18] = [
    "sync",
    "sync\n",
    "sync\r\n",
    "\n\nsync\n\n\r\n",
    "sync\nsync\n",
    "publish\nsync\n",
    "take\ngive\nsync\n",
    "take\nopen\ncommit\ngive\nsync\n",
    "open\nadd #20=IFCGROUP('g',$,$,$,$)\ncommit\nsync\n",
    "open\r\nadd #20=IFCGROUP('g',$,$,$,$);\r\ncommit\r\nsync\r\n",
    "open\nadd  #042 = IfcGroup ( ) /* ; */\ncommit\nsync\n",
    "open\nadd #1=A(#2,(#1,B(*)),-1.5E3,.T.,\"0F\");\ncommit\nsync\n",
    "open\nadd #1=A('a b;');/* behind */\ncommit\nsync\n",
    "open\nadd #2147483647=A(';')\ncommit\nsync\n",
    "open\nremove #2147483647\ncommit\nsync",
    "open\ncommit\nopen\ncommit\nsync\n",
    "work 1\nsync\n",
    "work 1000000\nsync\n",
];

/// What is refused, and at which line.
const REFUSED: [(&str, u32); 51] = [
    ("", 1),
    ("\n", 2),
    ("\r\n\n", 3),
    ("\r", 1),
    ("open\n", 2),
    ("open", 1),
    ("publish", 1),
    ("open\ncommit\n", 3),
    ("sync\nopen\n", 3),
    ("sync\nopen", 2),
    ("sync\npublish\n\n", 4),
    ("take\nsync\n", 2),
    ("open\nsync\n", 2),
    ("open\nadd #1=A($);\nsync\n", 3),
    ("commit\nsync\n", 1),
    ("add #1=A($);\nsync\n", 1),
    ("remove #1\nsync\n", 1),
    ("open\nopen\n", 2),
    ("give\nsync\n", 1),
    ("take\ngive\ngive\n", 3),
    ("take\ntake\n", 2),
    ("take\nwork 1\n", 2),
    ("open\ncommit\ncommit\n", 3),
    ("work 0\nsync\n", 1),
    ("work 01\nsync\n", 1),
    ("work 1000001\nsync\n", 1),
    ("work 2147483648\nsync\n", 1),
    ("work\nsync\n", 1),
    ("work \nsync\n", 1),
    ("work  1\nsync\n", 1),
    ("work 1 \nsync\n", 1),
    ("open\nremove 1\n", 2),
    ("open\nremove #0\n", 2),
    ("open\nremove #01\n", 2),
    ("open\nremove #2147483648\n", 2),
    ("open\nremove #1;\n", 2),
    ("open\nadd #1=A($\n", 2),
    ("open\nadd #1=A($);;\n", 2),
    ("open\nadd #1=A('a)\n", 2),
    ("open\nadd #0=A($);\n", 2),
    ("open\nadd #1=A(#0);\n", 2),
    ("open\nadd #1=A($)/*\n", 2),
    ("open\nadd\t#1=A($);\n", 2),
    ("open\nset #1 NAME $\n", 2),
    ("editor 2\nsync\n", 1),
    ("sync \n", 1),
    (" sync\n", 1),
    ("Sync\n", 1),
    ("sync\r", 1),
    ("sync\r\r\n", 1),
    ("sync\n \n", 2),
];

/// The line at which the script is refused, or 0 where it is read.
fn refused_at(alloc: Global, text: &str) -> Result<u32, Fail> {
    match read_script(alloc, text.as_bytes()) {
        Ok(_) => Ok(0),
        Err(Refusal::Fault(fault)) => Ok(fault.line),
        Err(Refusal::Memory) => Err("want of memory".into()),
    }
}

fn phases_of(alloc: Global, text: &str) -> Result<Phases, Fail> {
    match read_script(alloc, text.as_bytes()) {
        Ok(phases) => Ok(phases),
        Err(_) => Err("a script is refused".into()),
    }
}

/// A letter for what a line does, with the number that it names.
fn shown(act: &Act) -> (char, u32) {
    match act {
        Act::Begin => ('o', 0),
        Act::Change(Edit::Add(instance)) => ('a', instance.id.get()),
        Act::Change(Edit::Set { id, .. }) => ('s', id.get()),
        Act::Change(Edit::Remove(id)) => ('r', id.get()),
        Act::Commit => ('c', 0),
        Act::Publish => ('p', 0),
        Act::Take => ('t', 0),
        Act::Give => ('g', 0),
        Act::Work(times) => ('w', *times),
    }
}

#[test]
fn scripts_are_taken(rt: HostRuntime) -> Result<(), Fail> {
    for text in TAKEN {
        assert_eq!(rt; refused_at(rt.alloc(), text)?, 0, "{text}");
    }
    Ok(())
}

#[test]
fn scripts_are_refused(rt: HostRuntime) -> Result<(), Fail> {
    for (text, line) in REFUSED {
        assert_eq!(rt; refused_at(rt.alloc(), text)?, line, "{text}");
    }
    Ok(())
}

#[test]
fn each_line_is_read(rt: HostRuntime) -> Result<(), Fail> {
    let text =
        "open\nadd #20=A($)\nremove #7\ncommit\n\npublish\ntake\ngive\nwork 12\nsync\nsync\npublish\nsync\n";
    let phases = phases_of(rt.alloc(), text)?;
    let phases = phases.as_slice();
    assert_eq!(rt; phases.len(), 3);
    let wanted = [
        ('o', 0),
        ('a', 20),
        ('r', 7),
        ('c', 0),
        ('p', 0),
        ('t', 0),
        ('g', 0),
        ('w', 12),
    ];
    let lines = phases[0].lines.as_slice();
    assert_eq!(rt; lines.len(), wanted.len());
    for (line, pair) in lines.iter().zip(wanted) {
        assert_eq!(rt; line.editor, 1);
        assert!(rt; shown(&line.act) == pair);
    }
    assert_eq!(rt; phases[1].lines.as_slice().len(), 0);
    assert_eq!(rt; phases[2].lines.as_slice().len(), 1);
    Ok(())
}

/// A draft of 10,000 edits is taken, and one more edit is refused.
#[test]
fn edits_of_a_draft_are_limited(rt: HostRuntime) -> Result<(), Fail> {
    let mut text = String::new(rt.alloc());
    text.push_str("open\n")?;
    for _ in 0..10_000 {
        text.push_str("remove #1\n")?;
    }
    let full = format!(in rt.alloc(); "{text}commit\nsync\n")?;
    assert_eq!(rt; refused_at(rt.alloc(), full.as_str())?, 0);
    let over = format!(in rt.alloc(); "{text}remove #1\ncommit\nsync\n")?;
    assert_eq!(rt; refused_at(rt.alloc(), over.as_str())?, 10_002);
    Ok(())
}
