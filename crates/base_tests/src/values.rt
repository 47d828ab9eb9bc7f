use ifc_base::{
    InstId, Instance, Key, Memory, Name, Numbers, Role, TryCopy, Value, ValueNode, Values, refs_in,
};
use sqlite_items::{Boxed, Items};
use std::alloc::Global;
use std::process::Abort;
use std::test::Fail;

fn id(rt: &impl Abort, n: u32) -> InstId {
    InstId::new(n).expect(rt, "an id")
}

fn reference(rt: &impl Abort, n: u32) -> Value {
    Value {
        node: ValueNode::Ref(id(rt, n)),
    }
}

fn text(alloc: Global, text: &str) -> Result<Value, Memory> {
    Ok(Value {
        node: ValueNode::Text(Name::from_str(alloc, text)?),
    })
}

fn pair(alloc: Global, first: Value, second: Value) -> Result<Value, Memory> {
    let items = vec![in alloc; first, second]?;
    Ok(Value {
        node: ValueNode::List(Items::from_vec(items)),
    })
}

fn typed(alloc: Global, inner: Value) -> Result<Value, Memory> {
    let name = Name::from_str(alloc, "IFCLABEL")?;
    Ok(Value {
        node: ValueNode::Typed(name, Boxed::new(alloc, inner)?),
    })
}

/// `(#7,IFCLABEL(('é',#3)))`
fn nested(rt: &impl Abort, alloc: Global) -> Result<Value, Memory> {
    let inner = pair(alloc, text(alloc, "é")?, reference(rt, 3))?;
    pair(alloc, reference(rt, 7), typed(alloc, inner)?)
}

#[test]
fn a_copy_is_equal(rt: HostRuntime) -> Result<(), Fail> {
    let value = nested(&rt, rt.alloc())?;
    let copy = value.copy(rt.alloc())?;
    assert!(rt; value == copy);
    let mut params = Values::new(rt.alloc());
    let pushed = params.push(copy);
    assert!(rt; pushed.is_ok());
    let entity = Name::from_str(rt.alloc(), "IFCWALL")?;
    let instance = Instance {
        id: id(&rt, 9),
        entity,
        params,
    };
    assert!(rt; instance.copy(rt.alloc())? == instance);
    Ok(())
}

#[test]
fn references_come_in_reading_order(rt: HostRuntime) -> Result<(), Fail> {
    let mut out = vec![in rt.alloc(); id(&rt, 1)]?;
    refs_in(&nested(&rt, rt.alloc())?, &mut out)?;
    assert_eq!(rt;
        out.as_slice(),
        [id(&rt, 1), id(&rt, 7), id(&rt, 3)].as_slice()
    );
    Ok(())
}

#[test]
fn ids_have_both_ends(rt: HostRuntime) {
    for (number, taken) in [
        (0, false),
        (1, true),
        (2_147_483_647, true),
        (2_147_483_648, false),
    ] {
        assert_eq!(rt; InstId::new(number).is_some(), taken, "at {number}");
    }
}

#[test]
fn keys_go_by_id_then_kind(rt: HostRuntime) {
    let (one, two) = (id(&rt, 1), id(&rt, 2));
    assert!(rt; Key::Refs(one, Role::Fills) < Key::Inst(two));
    assert!(rt; Key::Inst(one) < Key::Refs(one, Role::Properties));
    assert!(rt; Key::Refs(one, Role::Properties) < Key::Refs(one, Role::Kind));
    assert!(rt; Key::Inst(one) == Key::Inst(one) && Key::Inst(one) != Key::Inst(two));
}

#[test]
fn names_and_lists_grow_at_their_end(rt: HostRuntime) -> Result<(), Fail> {
    let mut name = Name::new(rt.alloc());
    let pushed = name.push('A').is_ok() && name.push('é').is_ok();
    assert!(rt; pushed && name.is("Aé") && !name.is("A"));
    assert!(rt; name.copy(rt.alloc())? == name);
    let mut numbers = Numbers::new(rt.alloc());
    let pushed = numbers.push(3).is_ok() && numbers.push(1).is_ok();
    assert!(rt; pushed && numbers.as_slice() == [3, 1].as_slice());
    assert!(rt; numbers.copy(rt.alloc())? == numbers);
    Ok(())
}
