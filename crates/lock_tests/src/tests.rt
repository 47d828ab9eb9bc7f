use super::*;
use seen_lock::SeenLock;
use std::test::Fail;

#[test]
fn lock_keeps_entries(rt: HostRuntime) {
    let Ok((lock, mut seats)) = SeenLock::new(rt.alloc(), Log::new(rt.alloc(), 7), 2) else {
        panic!(rt; "no memory")
    };
    let mut one = seats.pop().unwrap();
    let mut zero = seats.pop().unwrap();
    assert!(rt; zero.number() == 0 && one.number() == 1);
    assert!(rt; add(&rt, &lock, &mut zero, 10).is_ok());
    assert!(rt; finds(&rt, &lock, &mut one, 0, 10));
    seats.push_reserved(zero);
    seats.push_reserved(one);
    let log = lock.close(seats);
    assert!(rt; log.limit == 7 && log.notes.len() == 1);
    assert!(rt; log.notes[0].by == 0 && log.notes[0].value == 10);
}

/// Whether the log has, of this seat, the values from 0 up to below this number, in their order.
fn has_all(log: &Log, seat: u32, turns: u64) -> bool {
    let mut wanted = 0..turns;
    for note in &log.notes {
        if note.by == seat && wanted.next() != Some(note.value) {
            return false;
        }
    }
    wanted.next().is_none()
}

#[test]
fn four_threads_of_a_thousand_turns(rt: HostRuntime) {
    let Ok((lock, seats)) = SeenLock::new(rt.alloc(), Log::new(rt.alloc(), 7), 4) else {
        panic!(rt; "no memory")
    };
    let Ok(back) = in_threads(&rt, &lock, seats, 1_000) else {
        panic!(rt; "no memory")
    };
    let log = lock.close(back);
    assert!(rt; log.limit == 7 && log.notes.len() == 4_000);
    for seat in 0..4 {
        assert!(rt; has_all(&log, seat, 1_000), "seat {seat}");
    }
}
