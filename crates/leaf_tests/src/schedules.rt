use std::test::Fail;
use turn_sched::Schedule;

#[test]
fn threads_keep_their_order(rt: HostRuntime) -> Result<(), Fail> {
    let mut schedule = Schedule::new(rt.alloc());
    schedule.reserve(3)?;
    schedule.add(7);
    schedule.add(8);
    schedule.add(9);
    schedule.start(9);
    schedule.start(7);
    assert_eq!(rt; schedule.pick(3), Some(7));
    schedule.back();
    assert_eq!(rt; schedule.ready_at(0), Some(9));
    assert_eq!(rt; schedule.ready_at(1), Some(7));
    assert_eq!(rt; schedule.suspended_at(0), Some(8));
    Ok(())
}
