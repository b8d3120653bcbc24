//! Names, drafts and class tables on examples.
#![tactic(auto)]

#[cfg(test)]
mod tests {
    use base::refusal::Refusal;
    use classes::draft::Draft;
    use classes::name::Name;
    use std::test::Fail;

    #[test]
    fn names(rt: HostRuntime) -> Result<(), Fail> {
        assert_eq!(rt; Name::new(b"").err(), Some(Refusal::BadName));
        assert_eq!(rt; Name::new(b"abcdefghi").err(), Some(Refusal::BadName));
        for byte in [0, b' ', b'-', b'/', b':', b'A', b'Z', b'`', b'{', 128, 255] {
            assert_eq!(rt; Name::new(&[b'a', byte]).err(), Some(Refusal::BadName));
        }
        for byte in [b'a', b'z', b'0', b'9'] {
            assert!(rt; Name::new(&[byte])?.is(&[byte]));
        }
        let name = Name::new(b"loader12")?;
        assert_eq!(rt; name.as_bytes().len(), 8);
        assert!(rt; !name.is(b"loader1"));
        assert_ne!(rt; name, Name::new(b"loader1")?);
        assert_eq!(rt; name.to_string(rt.alloc())?.as_str(), "loader12");
        Ok(())
    }

    #[test]
    fn refusals(rt: HostRuntime) {
        let mut draft = Draft::new(7);
        assert_eq!(rt; draft.add(9, 0, b"Root"), Err(Refusal::BadName));
        assert_eq!(rt; draft.add(9, 0, b"root"), Err(Refusal::NameTaken));
        assert_eq!(rt; draft.add(1, 0, b"film"), Err(Refusal::UnknownParent));
        assert_eq!(rt; draft.add_under(None, 0, b"Film"), Err(Refusal::BadName));
        assert_eq!(rt;
            draft.add_under(None, 0, b"film"),
            Err(Refusal::UnknownParent)
        );
        assert_eq!(rt; draft.add(0, 0, b"film"), Err(Refusal::BadWeight));
        assert_eq!(rt; draft.add(0, 17, b"film"), Err(Refusal::BadWeight));
        assert_eq!(rt; draft.add(0, 1, b"film"), Ok(1));
        assert_eq!(rt; draft.add(0, 16, b"film"), Err(Refusal::NameTaken));
        assert_eq!(rt; draft.add(0, 16, b"touch"), Ok(2));
        assert_eq!(rt; draft.into_parts().1.len(), 3);
    }

    #[test]
    fn depths(rt: HostRuntime) {
        let mut draft = Draft::new(7);
        for depth in 0..7 {
            assert_eq!(rt; draft.add(depth, 16, &[b'a' + depth]), Ok(depth + 1));
        }
        assert_eq!(rt; draft.add(7, 0, b"deep"), Err(Refusal::TooDeep));
        assert_eq!(rt; draft.add(8, 0, b"deep"), Err(Refusal::UnknownParent));
        assert_eq!(rt; draft.add(6, 1, b"deep"), Ok(8));
        assert_eq!(rt; draft.add(8, 1, b"deeper"), Err(Refusal::TooDeep));
    }

    #[test]
    fn a_full_draft(rt: HostRuntime) {
        let mut draft = Draft::new(7);
        for number in 1..64 {
            let name = [b'a' + number / 8, b'a' + number % 8];
            assert_eq!(rt; draft.add(0, 1, &name), Ok(number));
        }
        assert_eq!(rt; draft.find(b"hh"), Some(63));
        assert_eq!(rt; draft.add(0, 1, b"more"), Err(Refusal::TreeFull));
        assert_eq!(rt; draft.add(99, 0, b""), Err(Refusal::TreeFull));
    }

    #[test]
    fn reading(rt: HostRuntime) -> Result<(), Fail> {
        let mut draft = Draft::new(7);
        assert_eq!(rt; draft.add(0, 2, b"film"), Ok(1));
        assert_eq!(rt; draft.add(0, 1, b"touch"), Ok(2));
        assert_eq!(rt; draft.add(1, 3, b"loader"), Ok(3));
        assert_eq!(rt; draft.add(0, 1, b"idle"), Ok(4));
        assert_eq!(rt; draft.find(b"root"), Some(0));
        assert_eq!(rt; draft.find(b"loader"), Some(3));
        assert_eq!(rt; draft.find(b"load"), None);
        assert_eq!(rt; draft.find(b""), None);
        assert_eq!(rt; draft.house(), 7);
        let (house, table) = draft.into_parts();
        assert_eq!(rt; house, 7);
        assert_eq!(rt; table.len(), 5);
        for (number, first, next) in [
            (0, Some(4), None),
            (4, None, Some(2)),
            (2, None, Some(1)),
            (1, Some(3), None),
            (3, None, None),
            (5, None, None),
        ] {
            assert_eq!(rt; table.first_child(number), first);
            assert_eq!(rt; table.next_sibling(number), next);
            assert_eq!(rt; table.is_leaf(number), first == None);
        }
        for (number, parent) in [
            (0, None),
            (1, Some(0)),
            (3, Some(1)),
            (5, None),
            (255, None),
        ] {
            assert_eq!(rt; table.parent(number), parent);
        }
        let Some(loader) = table.class(3) else {
            assert!(rt; false);
            return Ok(());
        };
        assert_eq!(rt;
            (loader.parent, loader.weight.get(), loader.depth),
            (1, 3, 2)
        );
        assert_eq!(rt; loader.name.as_str(), "loader");
        assert!(rt; table.class(5).is_none());
        assert_eq!(rt; table.name(2), Some(Name::new(b"touch")?));
        assert_eq!(rt; table.name(5), None);
        Ok(())
    }
}
