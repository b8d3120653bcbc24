//! What items and a shelf do on examples, at quanta and at blocks.
#![tactic(auto)]

#[cfg(test)]
mod tests {
    use base::refusal::Refusal;
    use items::{Block, Item, Quantum};
    use shelf::shelf::Shelf;
    use std::process::Abort;

    const NO_QUANTUM: Quantum = Quantum { task: 0, time: 0 };

    const NO_BLOCK: Block = Block {
        first: 0,
        length: 0,
    };

    fn quantum(task: u32, time: u32) -> Quantum {
        Quantum { task, time }
    }

    fn block(first: u32, length: u32) -> Block {
        Block { first, length }
    }

    // A quantum may stop anywhere up to its time, a block only at its full length.
    #[test]
    fn kinds_stop_where_they_may(rt: HostRuntime) {
        for (done, may, rest) in [
            (0u32, true, 10u32),
            (8, true, 2),
            (10, true, 0),
            (11, false, 10),
        ] {
            assert_eq!(rt; quantum(3, 10).may_stop(done), may);
            assert_eq!(rt; quantum(3, 10).rest(done), quantum(3, rest));
        }
        for (done, may) in [(0u32, false), (8, false), (10, true), (11, false)] {
            assert_eq!(rt; block(100, 10).may_stop(done), may);
            assert_eq!(rt; block(100, 10).rest(done), block(100, 10));
        }
        assert_eq!(rt; quantum(3, 10).cost(), 10);
        assert_eq!(rt; block(100, 10).cost(), 10);
    }

    // Lanes are told apart, and each gives its items in the order in which they came.
    #[test]
    fn lanes_keep_their_order(rt: HostRuntime) {
        let mut memory = [NO_QUANTUM; 8];
        let mut shelf = Shelf::new(&mut memory);
        for (lane, task) in [(3u8, 1u32), (0, 2), (63, 3), (3, 4), (0, 5), (3, 6)] {
            assert_eq!(rt; shelf.put(lane, quantum(task, 10)), Ok(()));
        }
        assert_eq!(rt; shelf.len(3), 3);
        assert_eq!(rt; shelf.len(0), 2);
        assert_eq!(rt; shelf.len(63), 1);
        assert_eq!(rt; shelf.head(3), Some(quantum(1, 10)));
        for (lane, task) in [(0u8, 2u32), (3, 1), (3, 4), (63, 3), (0, 5), (3, 6)] {
            assert_eq!(rt; shelf.remove(lane), Some(quantum(task, 10)));
        }
        for lane in [3u8, 0, 63] {
            assert_eq!(rt; shelf.len(lane), 0);
            assert_eq!(rt; shelf.remove(lane), None);
        }
    }

    // As many items as there is room for are put and come back; one more is refused.
    fn fills_and_empties(rt: &impl Abort, places: &mut [Block], room: u16) {
        let mut shelf = Shelf::new(places);
        assert_eq!(rt; shelf.room(), room);
        assert_eq!(rt; shelf.free(), room);
        for i in 0..room {
            assert_eq!(rt; shelf.put((i % 64) as u8, block(i as u32, 7)), Ok(()));
        }
        assert_eq!(rt; shelf.free(), 0);
        assert_eq!(rt; shelf.put(5, block(1000, 7)), Err(Refusal::ShelfFull));
        for i in 0..room {
            assert_eq!(rt; shelf.remove((i % 64) as u8), Some(block(i as u32, 7)));
        }
        assert_eq!(rt; shelf.free(), room);
    }

    // Its places are those of the slice, up to the first 256; the memory behind them is left alone.
    #[test]
    fn places_are_those_of_the_slice(rt: HostRuntime) {
        for (places, room) in [(0usize, 0u16), (1, 1), (256, 256), (300, 256)] {
            assert!(rt; places <= 300);
            let mut memory = [NO_BLOCK; 300];
            fills_and_empties(&rt, &mut memory[0..places], room);
            assert_eq!(rt; memory[256], NO_BLOCK);
        }
    }

    // A place that was freed is used again, by any lane.
    #[test]
    fn freed_places_are_used_again(rt: HostRuntime) {
        let mut memory = [NO_QUANTUM; 2];
        let mut shelf = Shelf::new(&mut memory);
        assert_eq!(rt; shelf.put(0, quantum(0, 1)), Ok(()));
        assert_eq!(rt; shelf.put(1, quantum(1, 1)), Ok(()));
        for task in 2..200u32 {
            assert_eq!(rt; shelf.put(9, quantum(task, 1)), Err(Refusal::ShelfFull));
            assert_eq!(rt; shelf.remove((task % 2) as u8), Some(quantum(task - 2, 1)));
            assert_eq!(rt; shelf.free(), 1);
            assert_eq!(rt; shelf.put((task % 2) as u8, quantum(task, 1)), Ok(()));
        }
    }

    // The lane is checked before the cost, and the cost before the room.
    #[test]
    fn refusals_come_in_order(rt: HostRuntime) {
        let mut memory = [NO_QUANTUM; 2];
        let mut shelf = Shelf::new(&mut memory);
        for (lane, cost, answer) in [
            (64u8, 5u32, Err(Refusal::UnknownClass)),
            (255, 0, Err(Refusal::UnknownClass)),
            (63, 0, Err(Refusal::BadCost)),
            (63, 65_536, Err(Refusal::BadCost)),
            (63, 1, Ok(())),
            (63, 65_535, Ok(())),
            (64, 0, Err(Refusal::UnknownClass)),
            (63, 65_536, Err(Refusal::BadCost)),
            (63, 1, Err(Refusal::ShelfFull)),
        ] {
            assert_eq!(rt; shelf.put(lane, quantum(7, cost)), answer);
        }
        assert_eq!(rt; shelf.len(63), 2);
        assert_eq!(rt; shelf.remove(63), Some(quantum(7, 1)));
        assert_eq!(rt; shelf.remove(63), Some(quantum(7, 65_535)));
    }

    #[test]
    fn costs_of_blocks(rt: HostRuntime) {
        let mut memory = [NO_BLOCK; 4];
        let mut shelf = Shelf::new(&mut memory);
        for (cost, answer) in [
            (0u32, Err(Refusal::BadCost)),
            (1, Ok(())),
            (65_535, Ok(())),
            (65_536, Err(Refusal::BadCost)),
            (4_294_967_295, Err(Refusal::BadCost)),
        ] {
            assert_eq!(rt; shelf.put(0, block(9, cost)), answer);
        }
        assert_eq!(rt; shelf.len(0), 2);
    }

    // No lane above 63 has anything.
    #[test]
    fn unknown_lanes_are_empty(rt: HostRuntime) {
        let mut memory = [NO_BLOCK; 2];
        let mut shelf = Shelf::new(&mut memory);
        assert_eq!(rt; shelf.put(63, block(0, 8)), Ok(()));
        for lane in [64u8, 65, 128, 255] {
            assert_eq!(rt; shelf.len(lane), 0);
            assert_eq!(rt; shelf.head(lane), None);
            assert_eq!(rt; shelf.remove(lane), None);
            assert_eq!(rt; shelf.leave_rest(lane, 1), None);
        }
        assert_eq!(rt; shelf.free(), 1);
        assert_eq!(rt; shelf.len(63), 1);
    }

    // What is left of a quantum takes its place at the head, until all its cost is done.
    #[test]
    fn a_quantum_leaves_a_rest(rt: HostRuntime) {
        let mut memory = [NO_QUANTUM; 3];
        let mut shelf = Shelf::new(&mut memory);
        assert_eq!(rt; shelf.leave_rest(2, 0), None);
        assert_eq!(rt; shelf.put(2, quantum(1, 10)), Ok(()));
        assert_eq!(rt; shelf.put(2, quantum(2, 10)), Ok(()));
        for (done, rest) in [
            (11u32, None),
            (10, None),
            (8, Some(quantum(1, 2))),
            (3, None),
            (2, None),
            (0, Some(quantum(1, 2))),
            (1, Some(quantum(1, 1))),
            (1, None),
        ] {
            assert_eq!(rt; shelf.leave_rest(2, done), rest);
        }
        assert_eq!(rt; shelf.free(), 1);
        assert_eq!(rt; shelf.remove(2), Some(quantum(1, 1)));
        assert_eq!(rt; shelf.remove(2), Some(quantum(2, 10)));
    }

    // A block stops at its full length only, so it never leaves a rest.
    #[test]
    fn a_block_leaves_no_rest(rt: HostRuntime) {
        let mut memory = [NO_BLOCK; 1];
        let mut shelf = Shelf::new(&mut memory);
        assert_eq!(rt; shelf.put(0, block(100, 10)), Ok(()));
        for done in [0u32, 8, 10, 11] {
            assert_eq!(rt; shelf.leave_rest(0, done), None);
        }
        assert_eq!(rt; shelf.head(0), Some(block(100, 10)));
    }
}
