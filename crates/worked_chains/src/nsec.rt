//! NSEC chains (RFC 4034, section 4; RFC 4035, section 2.3; RFC 9077). The vectors also ask what
//! their records prove (RFC 4035, section 5.4; RFC 4592), and which of them a server answers with
//! (RFC 4035, section 3.1.3).
use super::*;

/// NSEC records.
type Nsecs = Vec<Typed<Nsec<Vec<u8>, OwnName>>>;

/// A chain that lends its records.
type Chain<'a> = NsecChain<'a, OwnName>;

/// Returns the configuration of the generator for a form.
fn config(form: &str) -> GenerateNsecConfig {
    match form {
        "dnskey" | "any" | "borrowed" => GenerateNsecConfig::new(),
        "deny" | "needed" => GenerateNsecConfig::new().with_occlude_below_dname(),
        "dname" => GenerateNsecConfig::new()
            .with_occlude_below_dname()
            .without_assuming_dnskeys_will_be_added(),
        _ => GenerateNsecConfig::new().without_assuming_dnskeys_will_be_added(),
    }
}

/// Adds the chain of a zone, or why it has none.
fn made(form: &str, apex: &OwnName, words: &[&str], answers: &mut Answers) -> Answered {
    let zone = answers.zone(words)?;
    let groups = zone.owner_rrs();
    if !groups.is_one_class() {
        return answers.echo("  more than one class");
    }
    let nsecs: Nsecs = answers.ok(generate_nsecs(answers.alloc, apex, groups, &config(form)))?;
    answers.show_records(nsecs.as_slice())
}

/// Adds what is picked from a chain to answer each name and type. For the form `needed`, adds only
/// what a response needs of it.
fn deny(
    form: &str,
    apex: &OwnName,
    chain: &Chain<'_>,
    asked: &[&str],
    answers: &mut Answers,
) -> Answered {
    let denier = answers.ok(NsecDenier::new(answers.alloc, chain))?;
    for words in asked.split(is_slash) {
        let (name, rtype) = answers.question(words)?;
        let denial = denier.deny(apex, &name, rtype);
        if denial != deny_nsec(apex, chain, &name, rtype) {
            answers.debug("not as without keys", &denial);
        }
        let denial = if form == "needed" {
            denial.needed(chain)
        } else {
            denial
        };
        answers.debug("answer", &denial.answer);
        say_owners!(answers, chain, denial: "name": of_name, "wildcard": of_wildcard);
    }
    Some(())
}

/// Adds the records that the chain of a zone lends: all, or those that answer questions.
fn lent(form: &str, apex: &OwnName, words: &[&str], answers: &mut Answers) -> Answered {
    let (listed, asked) = halves(words, ":");
    let zone = answers.zone(listed)?;
    let groups = zone.owner_rrs();
    if !groups.is_one_class() {
        return answers.ok(Err(ChainError::MixedClasses));
    }
    let made = NsecChain::generate(answers.alloc, apex, groups, &config(form));
    if form == "deny" || form == "needed" {
        let chain = answers.ok(made)?;
        return deny(form, apex, &chain, asked, answers);
    }
    let chain = answers.ok(made.map_err(ChainError::from))?;
    answers.show("records", &chain.len());
    say_lent!(answers, chain);
    Some(())
}

/// Returns what NSEC records prove about a name and a type if they are added one by one.
fn one_by_one(
    apex: &OwnName,
    chain: &[Typed<Nsec<Vec<u8>, OwnName>>],
    name: &OwnName,
    rtype: Rtype,
) -> Verdict {
    let mut check = NsecCheck::new(apex, name, rtype);
    for record in chain {
        check.add(record);
    }
    check.verdict()
}

/// Adds what NSEC records prove about each name and type, or what they answer as a whole.
fn judge(form: &str, apex: &OwnName, words: &[&str], answers: &mut Answers) -> Answered {
    let (listed, asked) = halves(words, ":");
    let chain = records_of!(answers, Nsec, listed);
    for words in asked.split(is_slash) {
        let (name, rtype) = answers.question(words)?;
        match form {
            "verdict" => {
                let verdict = check_nsec(apex, &chain, &name, rtype);
                if one_by_one(apex, &chain, &name, rtype) != verdict {
                    answers.echo("  another verdict one by one");
                }
                answers.debug("verdict", &verdict)
            }
            _ => answers.debug("answer", &judge_nsec(apex, &chain, &name, rtype)),
        };
    }
    Some(())
}

/// Answers a vector on chains. It has a form, the apex, and records after a colon. If it asks
/// something, names with types follow after another colon, with `/` between them.
pub fn answer(form: &str, words: &[&str], answers: &mut Answers) -> Answered {
    let apex = &answers.name(word(words, 0))?;
    let words = words.get(2..).unwrap_or_default();
    match form {
        "any" => {
            let (alloc, records, config) = (answers.alloc, answers.records(words)?, config("any"));
            let made = generate_nsecs_of_records(alloc, apex, records, &config);
            let nsecs: Nsecs = answers.ok(made)?;
            answers.show_records(nsecs.as_slice())
        }
        "borrowed" | "deny" | "needed" => lent(form, apex, words, answers),
        "verdict" | "judge" => judge(form, apex, words, answers),
        _ => made(form, apex, words, answers),
    }
}
