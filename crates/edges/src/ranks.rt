// Rank schemes at their limits.
use schemes::{BookFault, Priorities, RankScheme, Role, RoleBook};
use std::test::Fail;

fn book(level: u64, district: u64) -> Result<RoleBook, BookFault> {
    let mut roles = [Role {
        level: 4,
        district: 2,
    }; 16];
    roles[0] = Role { level, district };
    RoleBook::new(roles)
}

#[test]
fn a_role_outside_its_limits_is_refused(rt: HostRuntime) {
    assert!(rt; book(7, 3).is_ok());
    assert!(rt; book(8, 0).is_err(), "level 8");
    assert!(rt; book(0, 4).is_err(), "district 4");
    assert!(rt; book(u64::MAX, u64::MAX).is_err());
}

#[test]
fn districts_decide(rt: HostRuntime) -> Result<(), Fail> {
    let elsewhere = book(5, 1).map_err(|_| Fail::new("a good book"))?;
    assert!(rt;
        !elsewhere.is_above(0, 1),
        "level 5 district 1 against level 4 district 2"
    );
    let everywhere = book(5, 0).map_err(|_| Fail::new("a good book"))?;
    assert!(rt; everywhere.is_above(0, 1));
    assert!(rt; !everywhere.is_above(1, 0));
    assert!(rt; !everywhere.is_above(0, 16), "no such role");
    Ok(())
}

#[test]
fn priorities_rise(rt: HostRuntime) {
    let ranks = Priorities;
    assert!(rt; ranks.is_above(Priorities::EMERGENCY, Priorities::PRIVILEGED));
    assert!(rt; !ranks.is_above(Priorities::PRIVILEGED, Priorities::PRIVILEGED));
    assert!(rt; !ranks.is_above(3, Priorities::NORMAL), "no such priority");
    assert!(rt; <Priorities as RankScheme>::rank_count() == 3);
}
