//! Sorted sets after each step. Records are inserted one by one or at once. The answer shows what
//! is then stored, also after an out-of-memory error.
use super::*;

/// Adds the records that are stored.
fn stored(zone: &Zone, answers: &mut Answers) -> Answered {
    for record in zone.as_slice() {
        answers.show("stored", record);
    }
    Some(())
}

/// Returns whether an equal record was the reason for the error.
fn is_present(error: &InsertError<OwnName, Data>) -> bool {
    matches!(error, InsertError::Present(_))
}

/// Inserts a record, or adds the record that the error returns. An out-of-memory error ends the
/// answer.
fn insert(record: OwnedRecord, zone: &mut Zone, answers: &mut Answers) -> Answered {
    match zone.insert(record) {
        Ok(()) => {
            answers.echo("  inserted");
            stored(zone, answers)
        }
        Err(error) => {
            let is_present = is_present(&error);
            answers.echo(if is_present {
                "  present"
            } else {
                "  refused: OutOfMemory"
            });
            answers.show("handed back", &error.into_record());
            stored(zone, answers);
            is_present.then_some(())
        }
    }
}

/// Inserts each record, and adds what is stored after each.
pub fn inserted(words: &[&str], answers: &mut Answers) -> Answered {
    let records = answers.records(words)?;
    let mut zone = Zone::default(answers.alloc);
    let mut goes_on = true;
    for record in records {
        if goes_on {
            goes_on = insert(record, &mut zone, answers).is_some();
        }
    }
    Some(())
}

/// Inserts the first record, and extends the set with the others.
pub fn extended(words: &[&str], answers: &mut Answers) -> Answered {
    let (first, more) = halves(words, "/");
    let (first, more) = (answers.record(first)?, answers.records(more)?);
    let mut zone = Zone::default(answers.alloc);
    insert(first, &mut zone, answers)?;
    match zone.extend(more) {
        Ok(()) => answers.echo("  extended"),
        Err(error) => answers.debug("refused", &error),
    };
    stored(&zone, answers)
}

/// Makes a set of all records at once.
pub fn of_all(words: &[&str], answers: &mut Answers) -> Answered {
    stored(&answers.zone(words)?, answers)
}
