ghost use Rattle.std.specs.Prelude.{◌≡◌, IfOk};

use bas_items::Items;
use bas_names::{NameError, Rule, StreamName, escape, substitute};
use std::alloc::{AllocError, Global};
use std::test::Fail;

fn rule(alloc: Global, from: &[u8], to: Option<&[u8]>) -> Result<Rule, AllocError> {
    let from = Items::from_slice(alloc, from)?;
    let to = match to {
        Some(to) => Some(Items::from_slice(alloc, to)?),
        None => None,
    };
    Ok(Rule { from, to })
}

#[test]
fn first_matching_rule_counts(rt: HostRuntime) -> Result<(), Fail> {
    let alloc = rt.alloc();
    let longest = [b'v'; 80];
    let rules = [
        rule(alloc, b"/d", Some(b"/v"))?,
        rule(alloc, b"/dx", None)?,
        rule(alloc, b"/p", None)?,
        rule(alloc, b"/l", Some(longest.as_slice()))?,
        rule(alloc, b"/e", Some(b""))?,
    ];
    let cases: [(&[u8], Result<Option<&[u8]>, NameError>); 9] = [
        (b"/d/x", Ok(Some(b"/v/x"))),
        (b"/dog", Ok(Some(b"/vog"))),
        (b"/dx", Ok(Some(b"/vx"))),
        (b"/p/q", Ok(None)),
        (b"/a/d", Ok(Some(b"/a/d"))),
        (b"/l", Ok(Some(longest.as_slice()))),
        (b"/l/x", Err(NameError::TooLong)),
        (b"/e", Err(NameError::Empty)),
        (b"", Err(NameError::Empty)),
    ];
    for (name, expected) in cases {
        let answer = substitute(alloc, rules.as_slice(), name);
        let answer = match &answer {
            Ok(Some(new)) => Ok(Some(new.as_slice())),
            Ok(None) => Ok(None),
            Err(error) => Err(*error),
        };
        assert_eq!(rt; answer, expected, "at {name:?}");
    }
    Ok(())
}

#[test]
fn escapes_all_but_plain_bytes(rt: HostRuntime) -> Result<(), Fail> {
    let text = escape(rt.alloc(), b"/A z-._09\xff\n%+")?;
    assert_eq!(rt; text.as_slice(), b"/A%20z-._09%FF%0A%25%2B".as_slice());
    Ok(())
}

/// A clone of a rule is the rule: what the derive says of each field is enough to show it.
fn copy_of(rule: &Rule) -> Result<Rule, AllocError>
    ensures { IfOk result (λ copy. copy ≡ rule.now) }
{
    rule.clone()
}

#[test]
fn copies(rt: HostRuntime) -> Result<(), Fail> {
    let alloc = rt.alloc();
    let name = StreamName::File(Items::from_slice(alloc, b"/d/x")?);
    assert!(rt; name.clone()? == name);
    let rule = rule(alloc, b"/d", Some(b"/v"))?;
    assert!(rt; copy_of(&rule)? == rule);
    Ok(())
}
