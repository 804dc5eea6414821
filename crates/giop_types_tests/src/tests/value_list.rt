//! Lists of values.
use giop_types::{Value, ValueList};
use std::test::Fail;

#[test]
fn a_list_of_values_grows_and_gives_them_back(rt: HostRuntime) -> Result<(), Fail> {
    let alloc = rt.alloc();
    let mut list = ValueList::new(alloc);
    assert!(rt; list.is_empty());
    list.push(Value::Octet(1))?;
    list.push(Value::Boolean(true))?;
    assert_eq!(rt; list.len(), 2);
    assert!(rt; list.as_slice().last() == Some(&Value::Boolean(true)));
    let mut other = ValueList::new(alloc);
    assert!(rt; list != other);
    other.push(Value::Octet(1))?;
    assert!(rt; list != other && other != list);
    other.push(Value::Boolean(true))?;
    assert_eq!(rt; list, other);
    other.push(Value::Boolean(false))?;
    assert!(rt; list != other);
    let values = list.into_vec();
    assert_eq!(rt;
        values,
        vec![in alloc; Value::Octet(1), Value::Boolean(true)]?
    );
    assert_eq!(rt; ValueList::from(values).len(), 2);
    Ok(())
}
