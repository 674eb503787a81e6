// The Ether.
use carriers::Carrier;
use ether::Ether;
use messages::{Message, cell_address};
use std::test::Fail;

// The grant of the next message to the cell of station 1 for a listener; 1000, which no grant has here, where there is none, so that one
// comparison serves both.
fn next_grant(air: &mut Ether, listener: u16) -> u32 {
    air.hear(cell_address(1), listener)
        .map_or(1000, |message| message.grant)
}

#[test]
fn each_listener_hears_each_message_once(rt: HostRuntime) -> Result<(), Fail> {
    let mut air = Ether::new(rt.alloc())?;
    assert!(rt; air.quiet());
    assert!(rt;
        air.say(Message::release(1, 1))
            && air.say(Message::release(2, 2))
            && air.say(Message::release(1, 3))
    );
    assert_eq!(rt; next_grant(&mut air, 9), 1);
    assert_eq!(rt; next_grant(&mut air, 9), 3);
    assert_eq!(rt; next_grant(&mut air, 9), 1000);
    assert_eq!(rt; next_grant(&mut air, 208), 1, "another listener");
    assert_eq!(rt; next_grant(&mut air, 209), 1000, "no such listener");
    assert!(rt; !air.quiet(), "what was heard is still kept");
    Ok(())
}

#[test]
fn the_last_32_are_kept(rt: HostRuntime) -> Result<(), Fail> {
    let mut air = Ether::new(rt.alloc())?;
    for grant in 0..40u32 {
        assert!(rt; air.say(Message::release(1, grant)));
    }
    assert_eq!(rt; next_grant(&mut air, 9), 8);
    for _ in 0..30 {
        let _ = next_grant(&mut air, 9);
    }
    assert_eq!(rt; next_grant(&mut air, 9), 39);
    assert_eq!(rt; next_grant(&mut air, 9), 1000);
    Ok(())
}
