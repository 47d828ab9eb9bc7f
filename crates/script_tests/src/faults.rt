use ifc_base::Refusal;
use script_read::ScriptCause::{
    BadLine, DraftOpen, Holding, NoDraft, NoSync, NotHolding, TooManyActors, TooManyEdits,
};
use script_read::{ScriptCause, read_script};
use std::alloc::Global;
use std::test::Fail;

/// What is taken.
const TAKEN: [&str; 22] = [
    "sync",
    "sync\n",
    "sync\r\n",
    "\n\nsync\n\n\r\n",
    "sync\nsync\n",
    "editor 0000000000016\nopen\ncommit\neditor 1\nsync\n",
    "editor\t \t2\nsync",
    "take\ngive\nsync\n",
    "take\neditor 2\ntake\ngive\neditor 1\ngive\nsync\n",
    "open\neditor 2\nopen\ncommit\neditor 1\ncommit\nsync\n",
    "take\nopen\npublish\ncommit\ngive\nsync\n",
    "open\nadd #20=IFCGROUP('g',$,$,$,$)\ncommit\nsync\n",
    "open\r\nadd\t#20=IFCGROUP('g',$,$,$,$);\r\ncommit\r\nsync\r\n",
    "open\nadd  /* a */ #042 = IfcGroup ( ) /* ; */ \ncommit\nsync\n",
    "open\nadd #1=A('a b;');/* behind */\ncommit\nsync\n",
    "open\nset #0010 Name 'X'\ncommit\nsync\n",
    "open\nset\t\t#2147483647 \t _a1  /* a */ ( $ , 'b c' ) /* d */ \t\ncommit\nsync\n",
    "open\nset #1 A $ \t\r\ncommit\nsync\n",
    "open\nremove   #2147483647\ncommit\nsync",
    "open\ncommit\nopen\ncommit\nsync\n",
    "work\t1\nsync\n",
    "work 1000000\nsync\n",
];

/// Lines of no form. Each stands behind an `open`, at line 2.
const BAD: [&str; 51] = [
    " ",
    "\t",
    "Sync",
    "sync ",
    " sync",
    "\tsync",
    "sync\t",
    "synch",
    "open x",
    "open ",
    "editor",
    "editor ",
    "editor x",
    "editor -1",
    "editor +1",
    "editor 1 ",
    "editor 1 2",
    "editor1",
    "editor 1x",
    "work",
    "work ",
    "work 0",
    "work 01",
    "work 1000001",
    "work 18446744073709551617",
    "work 1 ",
    "work x",
    "remove",
    "remove 1",
    "remove #",
    "remove #0",
    "remove #2147483648",
    "remove # 1",
    "remove #1 ",
    "remove #1;",
    "remove#1",
    "set #1 Name",
    "set #1 Name ",
    "set #1 1a $",
    "set #1 a-b $",
    "set #1 a$",
    "set #0 a $",
    "set #1a $",
    "set #1 a $ $",
    "set # 1 a $",
    "set#1 a $",
    "add #1=A($",
    "add #1=A($);;",
    "add #0=A($);",
    "add#1=A($);",
    "undo 1",
];

/// What is refused, at which line, and why: where two causes hold, the earlier one of the list.
const REFUSED: [(&str, u32, ScriptCause); 49] = [
    ("", 1, NoSync),
    ("\n", 2, NoSync),
    ("\r\n\n", 3, NoSync),
    ("open", 1, NoSync),
    ("open\n", 2, NoSync),
    ("sync\nopen\n\n", 4, NoSync),
    ("sync\npublish", 2, NoSync),
    ("sync\neditor 2\n", 3, NoSync),
    ("\r", 1, BadLine),
    ("sync\r", 1, BadLine),
    ("sync\r\r\n", 1, BadLine),
    ("open\nopen", 2, DraftOpen),
    ("editor 0\n", 1, TooManyActors),
    ("editor 000\nsync\n", 1, TooManyActors),
    ("editor 17\nsync\n", 1, TooManyActors),
    ("editor 0000017\nsync\n", 1, TooManyActors),
    ("editor 4294967297\nsync\n", 1, TooManyActors),
    ("editor 18446744073709551617\nsync\n", 1, TooManyActors),
    ("take\nopen\neditor 17\nsync\n", 3, TooManyActors),
    ("take\nsync\n", 2, Holding),
    ("take\ntake\n", 2, Holding),
    ("take\nwork 1\n", 2, Holding),
    ("take\nopen\nsync\n", 3, Holding),
    ("open\neditor 2\ntake\neditor 3\nsync\n", 5, Holding),
    ("editor 16\ntake\neditor 1\nsync\n", 4, Holding),
    ("give\nsync\n", 1, NotHolding),
    ("take\ngive\ngive\n", 3, NotHolding),
    ("take\neditor 2\ngive\n", 3, NotHolding),
    ("open\ngive\n", 2, NotHolding),
    ("open\nsync\n", 2, DraftOpen),
    ("take\nopen\nopen\n", 3, DraftOpen),
    ("editor 2\nopen\neditor 1\nsync\n", 4, DraftOpen),
    ("commit\nsync\n", 1, NoDraft),
    ("add #1=A($);\nsync\n", 1, NoDraft),
    ("set #1 a $\nsync\n", 1, NoDraft),
    ("remove #1\nsync\n", 1, NoDraft),
    ("open\ncommit\ncommit\n", 3, NoDraft),
    ("open\neditor 2\ncommit\n", 3, NoDraft),
    ("open\ncommit\nsync\nremove #1\nsync\n", 4, NoDraft),
    ("take\nwork 0\n", 2, BadLine),
    ("open\nopen \n", 2, BadLine),
    ("add #1=A(;\n", 1, BadLine),
    ("set #1 a\n", 1, BadLine),
    ("give\t\n", 1, BadLine),
    ("editor 17 \n", 1, BadLine),
    ("\r\n\nopen\r\nadd #1=A(#0);\r\n", 4, BadLine),
    ("open\nadd #1=A($)/*\n", 2, BadLine),
    ("open\nadd #1=A('a)\n", 2, BadLine),
    (
        "open\nadd #1=A(((((((((((((((((($))))))))))))))))));\n",
        2,
        BadLine,
    ),
];

/// The line and the cause, or none where the script is read.
fn refused_at(alloc: Global, bytes: &[u8]) -> Result<Option<(u32, ScriptCause)>, Fail> {
    match read_script(alloc, bytes) {
        Ok(_) => Ok(None),
        Err(Refusal::Fault(fault)) => Ok(Some((fault.line, fault.why))),
        Err(Refusal::Memory) => Err("want of memory".into()),
    }
}

#[test]
fn scripts_are_taken(rt: HostRuntime) -> Result<(), Fail> {
    for text in TAKEN {
        assert!(rt;
            refused_at(rt.alloc(), text.as_bytes())?.is_none(),
            "{text}"
        );
    }
    Ok(())
}

/// Also the row of scripts that are refused for what they lack or leave open.
#[test]
fn script_faults(rt: HostRuntime) -> Result<(), Fail> {
    for (text, line, why) in REFUSED {
        assert!(rt;
            refused_at(rt.alloc(), text.as_bytes())? == Some((line, why)),
            "{text}"
        );
    }
    Ok(())
}

#[test]
fn lines_of_no_form(rt: HostRuntime) -> Result<(), Fail> {
    for line in BAD {
        let text = format!(in rt.alloc(); "open\n{line}\n")?;
        assert!(rt;
            refused_at(rt.alloc(), text.as_bytes())? == Some((2, BadLine)),
            "{line}"
        );
    }
    // Bytes that aren't UTF-8, within a comment and a string.
    assert!(rt;
        refused_at(rt.alloc(), b"open\nadd #1=A($)/*\xff*/;\nsync\n")? == Some((2, BadLine))
    );
    assert!(rt; refused_at(rt.alloc(), b"open\nset #1 a '\xc3'\nsync\n")? == Some((2, BadLine)));
    Ok(())
}

/// A draft of 10,000 edits is taken, and one more edit is refused; another editor's edits and those of an earlier draft don't count.
#[test]
fn edits_of_a_draft_are_limited(rt: HostRuntime) -> Result<(), Fail> {
    let mut text = String::from_str(
        rt.alloc(),
        "editor 2\nopen\nremove #1\ncommit\nopen\neditor 1\nopen\n",
    )?;
    for _ in 0..10_000 {
        text.push_str("remove #1\n")?;
    }
    let full = format!(in rt.alloc();
        "{text}editor 2\nremove #2\ncommit\neditor 1\ncommit\nsync\n"
    )?;
    assert!(rt; refused_at(rt.alloc(), full.as_bytes())?.is_none());
    let over = format!(in rt.alloc(); "{text}remove #1\ncommit\nsync\n")?;
    assert!(rt; refused_at(rt.alloc(), over.as_bytes())? == Some((10_008, TooManyEdits)));
    Ok(())
}
