// What a type shows to who looks at it.
use std::test::Fail;
use turn_cell::Machine;
use type_core::Kind;

#[test]
fn a_type_shows_how_many_versions_it_has(rt: HostRuntime) -> Result<(), Fail> {
    let alloc = rt.alloc();
    assert!(rt; matches!(Machine::view(&Kind::new(alloc, 4), alloc), Ok(0)));
    Ok(())
}
