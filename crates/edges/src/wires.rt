// The Queue, the Fade and the Script, and addresses at their ends.
use carriers::{Carrier, Fade, Queue};
use messages::{Message, cell_address, mobile_listener};
use script::Script;
use std::test::Fail;

// How many of so many RELEASE COMMANDs to station 1 a carrier keeps.
fn kept_of<C: Carrier>(carrier: &mut C, count: u32) -> usize {
    (0..count)
        .filter(|grant| carrier.say(Message::release_command(1, *grant)))
        .count()
}

// The grant of the next message to station 1; 1000, which no grant has here, where there is none, so that one comparison serves both.
fn next_grant<C: Carrier>(carrier: &mut C) -> u32 {
    carrier.hear(1, 1).map_or(1000, |message| message.grant)
}

#[test]
fn the_65th_message_is_lost(rt: HostRuntime) -> Result<(), Fail> {
    let mut queue = Queue::new(rt.alloc())?;
    assert!(rt; queue.quiet());
    assert_eq!(rt; kept_of(&mut queue, 65), 64);
    assert!(rt; queue.hear(2, 2).is_none(), "nothing for station 2");
    assert_eq!(rt; next_grant(&mut queue), 0, "the oldest first");
    assert_eq!(rt; next_grant(&mut queue), 1);
    assert!(rt; queue.say(Message::release_command(1, 9)));
    Ok(())
}

#[test]
fn marks_lose_and_repeat(rt: HostRuntime) -> Result<(), Fail> {
    let mut marks = [0u8; 64];
    marks[0] = 1;
    marks[1] = 2;
    let mut fade = Fade::new(Queue::new(rt.alloc())?, marks);
    assert_eq!(rt; kept_of(&mut fade, 3), 2);
    assert_eq!(rt; next_grant(&mut fade), 1);
    assert_eq!(rt; next_grant(&mut fade), 1, "said twice");
    assert_eq!(rt; next_grant(&mut fade), 2);
    assert!(rt; fade.quiet());
    Ok(())
}

#[test]
fn a_script_plays_old_messages_again(rt: HostRuntime) -> Result<(), Fail> {
    let picks = vec![in rt.alloc(); 1, 0, 1, 7]?;
    let mut script = Script::new(rt.alloc(), picks);
    assert_eq!(rt; kept_of(&mut script, 2), 2);
    assert_eq!(rt; next_grant(&mut script), 1);
    assert_eq!(rt; next_grant(&mut script), 0);
    assert_eq!(rt; next_grant(&mut script), 1);
    assert_eq!(rt; next_grant(&mut script), 1000, "no such place");
    assert_eq!(rt; next_grant(&mut script), 1000, "past the script's end");
    Ok(())
}

#[test]
fn addresses_never_overflow(rt: HostRuntime) {
    assert_eq!(rt; cell_address(255), 463);
    assert_eq!(rt; mobile_listener(255), 263);
}
