// Tests of the lines that are read and printed: a crate of their own, since one with tests is proved twice.
#![tactic(auto)]

#[cfg(test)]
mod tests {
    use answers::{Played, Refusal};
    use desk::Reply;
    use order::Bag;
    use std::alloc::Global;
    use std::process::Abort;
    use std::test::Fail;
    use text::{Fault, read};

    // What a line says, written again; a blank line gives nothing.
    fn again(heap: Global, line: &str) -> Result<String, Fault> {
        match read(heap, line.as_bytes())? {
            None => Ok(String::new(heap)),
            Some(command) => Ok(command.to_string(heap)?),
        }
    }

    #[test]
    fn commands(rt: HostRuntime) -> Result<(), Fail> {
        let lines = [
            "rule 100 10 4 9",
            "pans 23 0 40",
            "ages",
            "handfuls 7",
            "bag",
            "fall 3 25",
            "bags 1000",
        ];
        for line in lines {
            assert!(rt; again(rt.alloc(), line)?.as_str() == line);
        }
        assert!(rt;
            again(rt.alloc(), "bags 12345678901234567890123")?.as_str() == "bags 4294967295"
        );
        assert!(rt; again(rt.alloc(), "")?.is_empty());
        assert!(rt; again(rt.alloc(), "# 007")?.is_empty());
        Ok(())
    }

    #[test]
    fn unreadable(rt: HostRuntime) {
        let lines = [
            "bag 007", "bags 007", "bags +5", "rule -1", "pans  1", "pans 1 ", "ages\t1", "bag\r",
            "fall 1", "bags 1 2", "rulé", "Bag", " bag",
        ];
        for line in lines {
            assert!(rt;
                matches!(read(rt.alloc(), line.as_bytes()), Err(Fault::Unreadable)),
                "{}",
                line
            );
        }
        assert!(rt;
            matches!(
                read(rt.alloc(), &[98, 97, 103, 255]),
                Err(Fault::Unreadable)
            )
        );
    }

    fn printed(rt: &impl Abort, heap: Global, reply: Reply, text: &str) -> Result<(), Fail> {
        assert!(rt; reply.to_string(heap)?.as_str() == text, "{}", text);
        Ok(())
    }

    #[test]
    fn replies(rt: HostRuntime) -> Result<(), Fail> {
        let heap = rt.alloc();
        let bag = Bag {
            pans: 204,
            weight: 100,
        };
        let open = Reply::of_bag(Ok(Some(bag)), 2);
        printed(&rt, heap, open, "open 2 3 6 7: 100")?;
        printed(&rt, heap, Reply::None, "none")?;
        printed(
            &rt,
            heap,
            Reply::refused(Refusal::Number(5), 2),
            "refused 3 at 5",
        )?;
        printed(
            &rt,
            heap,
            Reply::refused(Refusal::Line, 7),
            "refused 4 at 7",
        )?;
        let further = Refusal::Further {
            number: 6,
            place: 1,
        };
        printed(&rt, heap, Reply::refused(further, 7), "refused 6 at 1")?;
        let played = Played {
            bags: 7,
            weight: 702,
            given_away: 2,
            ended_early: true,
        };
        let season = Reply::of_season(Ok(played), 2);
        printed(&rt, heap, season, "bags 7: 702, 2 given away, then none")
    }
}
