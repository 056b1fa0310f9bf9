//! Each value once, made and given back.

use super::*;
use std::test::Fail;

#[test]
fn octets_are_given_back(rt: HostRuntime) -> Result<(), Fail> {
    let octets = Octets::new(b"ab".to_vec(rt.alloc())?);
    assert_eq!(rt; octets.len(), 2);
    assert!(rt; !octets.is_empty());
    assert_eq!(rt; octets.as_slice(), b"ab".as_slice());
    assert_eq!(rt; octets.into_vec().as_slice(), b"ab".as_slice());
    Ok(())
}

#[test]
fn a_text_is_given_back(rt: HostRuntime) -> Result<(), Fail> {
    let text = Text::new(String::from_str(rt.alloc(), "hé")?);
    assert_eq!(rt; text.len(), 3);
    assert!(rt; !text.is_empty());
    assert_eq!(rt; text.as_str(), "hé");
    assert_eq!(rt; text.into_string().as_str(), "hé");
    Ok(())
}

#[test]
fn a_row_is_given_back(rt: HostRuntime) -> Result<(), Fail> {
    let row = Row::new([1u32, 2, 3].to_vec(rt.alloc())?);
    assert_eq!(rt; row.len(), 3);
    assert!(rt; !row.is_empty());
    assert_eq!(rt; row.as_slice(), [1, 2, 3].as_slice());
    assert_eq!(rt; row.into_vec().as_slice(), [1, 2, 3].as_slice());
    Ok(())
}

#[test]
fn frames_are_given_back(rt: HostRuntime) -> Result<(), Fail> {
    let mut bodies = Vec::new(rt.alloc());
    bodies.push(b"abc".to_vec(rt.alloc())?)?;
    let frames = Frames::new(bodies);
    assert_eq!(rt; frames.len(), 1);
    assert!(rt; !frames.is_empty());
    for body in frames.as_slice() {
        assert_eq!(rt; body.as_slice(), b"abc".as_slice());
    }
    for body in &frames.into_vec() {
        assert_eq!(rt; body.as_slice(), b"abc".as_slice());
    }
    Ok(())
}
