//! Both tag stores, driven by the same tables.
#![tactic(auto)]

#[cfg(test)]
mod tests {
    use base::units::Parts;
    use heap::HeapStore;
    use sorted::SortedStore;
    use std::process::Abort;
    use tags::TagStore;

    const LAST: u64 = 18_446_744_073_709_551_615;

    // One call, with what it has to answer.
    #[derive(Clone, Copy)]
    enum Step {
        Put {
            group: u8,
            class: u8,
            tag: u64,
            done: bool,
        },
        Least {
            group: u8,
            least: Option<(u8, u64)>,
        },
        Take {
            class: u8,
            tag: Option<u64>,
        },
    }

    fn put(group: u8, class: u8, tag: u64, done: bool) -> Step {
        Step::Put {
            group,
            class,
            tag,
            done,
        }
    }

    fn least(group: u8, least: Option<(u8, u64)>) -> Step {
        Step::Least { group, least }
    }

    fn take(class: u8, tag: Option<u64>) -> Step {
        Step::Take { class, tag }
    }

    fn answers<T: TagStore>(store: &mut T, step: Step) -> bool {
        match step {
            Step::Put {
                group,
                class,
                tag,
                done,
            } => store.put(group, class, Parts::new(tag)) == done,
            Step::Least { group, least } => {
                store.least(group).map(|(class, tag)| (class, tag.get())) == least
            }
            Step::Take { class, tag } => store.take(class).map(Parts::get) == tag,
        }
    }

    fn drive<T: TagStore + Drop>(rt: &impl Abort, steps: &[Step]) {
        let mut store = T::empty();
        for step in steps {
            assert!(rt; answers(&mut store, *step));
        }
    }

    fn drive_both(rt: &impl Abort, steps: &[Step]) {
        drive::<HeapStore>(rt, steps);
        drive::<SortedStore>(rt, steps);
    }

    // Numbers above 63 are no groups and no classes.
    #[test]
    fn bad_numbers(rt: HostRuntime) {
        drive_both(
            &rt,
            &[
                least(0, None),
                least(63, None),
                least(64, None),
                least(255, None),
                take(0, None),
                take(64, None),
                take(255, None),
                put(64, 0, 1, false),
                put(0, 64, 1, false),
                put(255, 255, 0, false),
                put(63, 255, 0, false),
                put(255, 63, 0, false),
                put(63, 63, LAST, true),
                put(63, 64, 0, false),
                put(64, 63, 0, false),
                least(63, Some((63, LAST))),
                least(64, None),
                least(0, None),
                take(64, None),
                take(63, Some(LAST)),
                least(63, None),
            ],
        );
    }

    // The lower tag goes first, and the lower class at equal tags. A class stands in one group only.
    #[test]
    fn mixed_calls(rt: HostRuntime) {
        drive_both(
            &rt,
            &[
                put(5, 63, LAST, true),
                put(5, 8, LAST, true),
                least(5, Some((8, LAST))),
                put(5, 40, 0, true),
                least(5, Some((40, 0))),
                put(5, 7, 0, true),
                least(5, Some((7, 0))),
                put(5, 50, 0, true),
                least(5, Some((7, 0))),
                put(0, 0, 9, true),
                put(0, 1, 8, true),
                least(0, Some((1, 8))),
                put(0, 7, 3, false),
                put(5, 7, 3, false),
                put(6, 0, 0, false),
                least(0, Some((1, 8))),
                least(5, Some((7, 0))),
                least(6, None),
                take(7, Some(0)),
                take(7, None),
                least(5, Some((40, 0))),
                put(0, 7, 8, true),
                least(0, Some((1, 8))),
                take(1, Some(8)),
                least(0, Some((7, 8))),
                take(63, Some(LAST)),
                take(40, Some(0)),
                least(5, Some((50, 0))),
                take(50, Some(0)),
                least(5, Some((8, LAST))),
                take(8, Some(LAST)),
                least(5, None),
                put(5, 8, 1, true),
                least(5, Some((8, 1))),
                take(7, Some(8)),
                least(0, Some((0, 9))),
                take(0, Some(9)),
                least(0, None),
                least(5, Some((8, 1))),
            ],
        );
    }

    // A class is taken from the middle. In a heap of these, whose second place has tag 10, the last class, with tag 4, goes to a place below that and has to rise.
    #[test]
    fn taken_from_the_middle(rt: HostRuntime) {
        drive_both(
            &rt,
            &[
                put(2, 0, 1, true),
                put(2, 1, 10, true),
                put(2, 2, 2, true),
                put(2, 3, 11, true),
                put(2, 4, 12, true),
                put(2, 5, 3, true),
                put(2, 6, 4, true),
                take(3, Some(11)),
                least(2, Some((0, 1))),
                take(0, Some(1)),
                least(2, Some((2, 2))),
                take(2, Some(2)),
                least(2, Some((5, 3))),
                take(5, Some(3)),
                least(2, Some((6, 4))),
                take(6, Some(4)),
                least(2, Some((1, 10))),
                take(1, Some(10)),
                least(2, Some((4, 12))),
                take(4, Some(12)),
                least(2, None),
            ],
        );
    }

    // All 64 classes stand in one group, two with each tag from 0 to 31, the higher classes with the lower tags. They come out by tag, then by class.
    fn fill_and_drain<T: TagStore + Drop>(rt: &impl Abort, group: u8) {
        let mut store = T::empty();
        for class in 0..64u8 {
            assert!(rt; store.put(group, class, Parts::new((63 - class as u64) / 2)));
            assert!(rt; !store.put(group, class, Parts::ZERO));
        }
        for turn in 0..64u8 {
            let tag = Parts::new(turn as u64 / 2);
            let class = 62 - turn / 2 * 2 + turn % 2;
            assert_eq!(rt; store.least(group), Some((class, tag)));
            assert_eq!(rt; store.take(class), Some(tag));
        }
        assert_eq!(rt; store.least(group), None);
    }

    // The even classes stand, by rising tags, after the odd ones were taken from the highest down.
    fn thin_and_drain<T: TagStore + Drop>(rt: &impl Abort, group: u8) {
        let mut store = T::empty();
        for class in 0..64u8 {
            assert!(rt; store.put(group, class, Parts::new(1000 + class as u64)));
        }
        for turn in 0..32u8 {
            let class = 63 - 2 * turn;
            assert_eq!(rt; store.take(class), Some(Parts::new(1000 + class as u64)));
            assert_eq!(rt; store.take(class), None);
            assert_eq!(rt; store.least(group), Some((0, Parts::new(1000))));
        }
        for turn in 0..32u8 {
            let class = 2 * turn;
            let tag = Parts::new(1000 + class as u64);
            assert_eq!(rt; store.least(group), Some((class, tag)));
            assert_eq!(rt; store.take(class), Some(tag));
        }
        assert_eq!(rt; store.least(group), None);
    }

    #[test]
    fn full_groups(rt: HostRuntime) {
        fill_and_drain::<HeapStore>(&rt, 0);
        fill_and_drain::<SortedStore>(&rt, 0);
        thin_and_drain::<HeapStore>(&rt, 63);
        thin_and_drain::<SortedStore>(&rt, 63);
    }
}
