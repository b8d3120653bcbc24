//! What `stall` prints: items done, items that are stopped, and each fault.
#![tactic(auto)]

#[cfg(test)]
mod tests {
    use stalling::stall::stall;
    use std::test::Fail;

    #[test]
    fn items(rt: HostRuntime) -> Result<(), Fail> {
        for (input, printed) in [
            ("l 8\ni 8\n", "draw 0 wanted 8 done 8\ndraws 1, idle 0\n"),
            (
                "l 65535\ni 1\n",
                "draw 0 wanted 1 done 1\ndraws 1, idle 0\n",
            ),
            (
                "l 40000\no 1 1\ni 65535\n",
                "draw 0 wanted 65535 done 40000\ndraw 1 wanted 25535 done 0\ndraw 2 wanted 25535 done 25535\ndraws 3, idle 1\n",
            ),
            (
                "l 1\no 0 2\no 2 1\no 4294967294 1\ni 2\n",
                "draw 0 wanted 2 done 0\ndraw 1 wanted 2 done 0\ndraw 2 wanted 2 done 0\ndraw 3 wanted 2 done 1\ndraw 4 wanted 1 done 1\ndraws 5, idle 3\n",
            ),
        ] {
            let out = stall(rt.alloc(), input.as_bytes())?;
            assert_eq!(rt; out.as_str(), printed);
        }
        Ok(())
    }

    // items at the most draws, and past them
    #[test]
    fn stops(rt: HostRuntime) -> Result<(), Fail> {
        for (input, last) in [
            (
                "l 1\no 0 34465\ni 65535\n",
                "draw 99999 wanted 1 done 1\ndraws 100000, idle 34465\n",
            ),
            (
                "l 1\no 0 34466\ni 65535\n",
                "draw 99999 wanted 2 done 1\nstopped: draws 100000, idle 34466, left 1\n",
            ),
            (
                "l 9\no 0 4294967295\ni 7\n",
                "draw 99999 wanted 7 done 0\nstopped: draws 100000, idle 100000, left 7\n",
            ),
        ] {
            let out = stall(rt.alloc(), input.as_bytes())?;
            assert!(rt; out.as_str().ends_with(last));
        }
        Ok(())
    }

    #[test]
    fn faults(rt: HostRuntime) -> Result<(), Fail> {
        for (input, printed) in [
            ("", "line 1: the rate is missing\n"),
            ("l 8\n", "line 2: the item is missing\n"),
            ("l 8\no 1 1\n", "line 3: the item is missing\n"),
            ("l 0\n", "line 1: the rate is not from 1 to 65535\n"),
            ("l 65536\n", "line 1: the rate is not from 1 to 65535\n"),
            ("l 8\ni 0\n", "line 2: the cost is not from 1 to 65535\n"),
            (
                "l 8\ni 65536\ni 0\n",
                "line 2: the cost is not from 1 to 65535\n",
            ),
            (
                "l 8\no 3 2\no 4 1\n",
                "line 3: the outage is empty, early, too late or the 17th\n",
            ),
            ("i 8\n", "line 1: the line is out of its part\n"),
            ("o 1 1\n", "line 1: the line is out of its part\n"),
            ("l 8\nl 0\n", "line 2: the line is out of its part\n"),
            ("l 8\ni 8\no 0 0\n", "line 3: the line is out of its part\n"),
            ("l 8\ni 8", "line 2: the line has a wrong form\n"),
            ("\n", "line 1: the line has a wrong form\n"),
            ("l 8\ni 8\n\n", "line 3: the line has a wrong form\n"),
        ] {
            let out = stall(rt.alloc(), input.as_bytes())?;
            assert_eq!(rt; out.as_str(), printed);
        }
        Ok(())
    }

    #[test]
    fn forms(rt: HostRuntime) -> Result<(), Fail> {
        for input in [
            "l",
            "l\n",
            "l \n",
            "l x\n",
            "l 08\n",
            "l +8\n",
            "l 8 \n",
            "l  8\n",
            " l 8\n",
            "l 8\r\n",
            "l 4294967296\n",
            "L 8\n",
            "ll 8\n",
            "o 1\n",
            "o 1 2 3\n",
            "o 1  2\n",
            "i -1\n",
            "i 1 1\n",
            "i ä\n",
            "\0",
        ] {
            let out = stall(rt.alloc(), input.as_bytes())?;
            assert_eq!(rt; out.as_str(), "line 1: the line has a wrong form\n");
        }
        Ok(())
    }
}
