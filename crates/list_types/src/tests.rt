use super::*;
use std::test::Fail;

#[test]
fn a_list_keeps_its_items_in_order(rt: HostRuntime) -> Result<(), Fail> {
    let mut list = ListOf::new(rt.alloc());
    list.push(7u8)?;
    list.push(9)?;
    assert_eq!(rt; list.as_slice(), [7, 9].as_slice());
    let list = ListOf::from_vec(list.into_vec());
    assert_eq!(rt; list.len(), 2);
    Ok(())
}

#[test]
fn a_text_keeps_its_characters(rt: HostRuntime) -> Result<(), Fail> {
    let mut text = Text::new(rt.alloc());
    text.push_str("re")?;
    text.push_str("mux")?;
    assert_eq!(rt; text.as_str(), "remux");
    assert_eq!(rt; Text::of(rt.alloc(), "mux")?.as_str(), "mux");
    Ok(())
}
