//! Lists of values, and values written and read again at every offset.
use super::samples::{checked, pair};
use giop_cdr::{EncodeFault, Order};
use giop_types::laws::encoded_and_decoded;
use giop_types::{Value, ValueList};
use std::test::Fail;

#[test]
fn a_list_of_values_grows_and_gives_them_back(rt: HostRuntime) -> Result<(), Fail> {
    let alloc = rt.alloc();
    let mut list = ValueList::new(alloc);
    assert!(rt; list.is_empty());
    list.push(Value::Octet(1))?;
    list.push(Value::Boolean(true))?;
    assert_eq!(rt; list.len(), 2);
    assert!(rt; list.as_slice().last() == Some(&Value::Boolean(true)));
    let mut other = ValueList::new(alloc);
    assert!(rt; list != other);
    other.push(Value::Octet(1))?;
    assert!(rt; list != other && other != list);
    other.push(Value::Boolean(true))?;
    assert_eq!(rt; list, other);
    other.push(Value::Boolean(false))?;
    assert!(rt; list != other);
    let values = list.into_vec();
    assert_eq!(rt;
        values,
        vec![in alloc; Value::Octet(1), Value::Boolean(true)]?
    );
    assert_eq!(rt; ValueList::from(values).len(), 2);
    Ok(())
}

#[test]
fn what_is_written_is_read_again_at_every_offset(rt: HostRuntime) -> Result<(), Fail> {
    let alloc = rt.alloc();
    let desc = checked(pair(alloc)?)?;
    for start in 0..9u16 {
        for order in [Order::Big, Order::Little] {
            let value = Value::Members(vec![in alloc; Value::Octet(1), Value::LongLong(-2)]?);
            let again = encoded_and_decoded(alloc, order, start as usize, &desc, &value);
            assert_eq!(rt; again, Ok(Ok(value)));
        }
    }
    let again = encoded_and_decoded(alloc, Order::Big, 0, &desc, &Value::Octet(1));
    assert_eq!(rt; again, Err(EncodeFault::Unfit));
    Ok(())
}
