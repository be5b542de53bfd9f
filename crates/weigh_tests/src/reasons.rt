// What is told of lines that are no commands, and of refusals.
use answers::Refusal;
use explaining::reason_of;
use std::process::Abort;
use std::test::Fail;

fn told(rt: &HostRuntime, line: &str, refusal: Refusal) -> Result<String, Fail> {
    let reason = reason_of(rt.alloc(), line.as_bytes(), refusal)?;
    Ok(reason.to_string(rt.alloc())?)
}

fn tells(rt: &HostRuntime, line: &str, part: &str) -> Result<bool, Fail> {
    Ok(told(rt, line, Refusal::Line)?.as_str().contains(part))
}

#[test]
fn flaws(rt: HostRuntime) -> Result<(), Fail> {
    assert!(rt; tells(&rt, "bag\r", "at byte 3, a carriage return")?);
    assert!(rt; tells(&rt, "pans\t1", "at byte 4, a tab")?);
    assert!(rt; tells(&rt, "pans  1", "at byte 5, a blank too many")?);
    assert!(rt; tells(&rt, " bag", "at byte 0, a blank too many")?);
    assert!(rt; tells(&rt, "pans 1 ", "at byte 6, a blank too many")?);
    assert!(rt; tells(&rt, "bags +5", "at byte 5, a sign")?);
    assert!(rt; tells(&rt, "bags 007", "at byte 5, a number that begins with 0")?);
    Ok(())
}

#[test]
fn words_and_numbers(rt: HostRuntime) -> Result<(), Fail> {
    assert!(rt; tells(&rt, "Pan 1", "did you mean `pans`?")?);
    assert!(rt; tells(&rt, "weigh", "--help lists the commands")?);
    assert!(rt; tells(&rt, "pans 1 2x", "at byte 8, no digit")?);
    assert!(rt; tells(&rt, "bag 3", "the command is bag: makes the best bag")?);
    assert!(rt; tells(&rt, "fall 1 5", "there and empty")?);
    assert!(rt;
        tells(
            &rt,
            "bags 1000001",
            "bags N: a season of N bags, at most 1000000"
        )?
    );
    Ok(())
}

#[test]
fn refusals(rt: HostRuntime) -> Result<(), Fail> {
    assert!(rt;
        told(&rt, "bag", Refusal::Rule(3))?
            .as_str()
            .contains("number 3 of the rule")
    );
    assert!(rt;
        told(&rt, "bag", Refusal::Pans(2))?
            .as_str()
            .contains("2 pans or ages")
    );
    assert!(rt;
        told(&rt, "bag", Refusal::Number(9))?
            .as_str()
            .contains("number 9 of the pans")
    );
    assert!(rt;
        told(&rt, "bag", Refusal::Room(64))?
            .as_str()
            .contains("64 entries")
    );
    let further = Refusal::Further {
        number: 7,
        place: 3,
    };
    assert!(rt;
        told(&rt, "bag", further)?
            .as_str()
            .contains("refusal 7 at 3")
    );
    Ok(())
}
