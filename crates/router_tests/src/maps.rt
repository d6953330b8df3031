//! Which keys are certainly greater than those of a map: its clause says only what follows from it.
use keyed_map::KeyedMap;
use std::process::Abort;
use std::test::Fail;
use words::{Key, LinkStateId, RouterId};

fn key(number: u32) -> Key {
    Key {
        ls_type: 5,
        link_state_id: LinkStateId::new(number),
        advertising_router: RouterId::new(0x0101_0101),
    }
}

#[test]
fn a_key_behind_the_last_one_is_beyond(rt: HostRuntime) -> Result<(), Fail> {
    let mut map = KeyedMap::new(rt.alloc());
    map.insert(key(3), 30_u32)?;
    assert!(rt; map.is_beyond(&key(4)), "the last one is 3");
    map.commit();
    map.remove(&key(3))?;
    map.commit();
    assert!(rt; map.is_beyond(&key(0)), "none is left");
    Ok(())
}
