//! A macro over the records of an answer.

/// Lists the records of one type among those that words spell.
#[macro_export]
macro_rules! records_of {
    ($answers:ident, $rtype:ident, $words:expr) => {{
        let mut picked = Vec::new($answers.alloc);
        for record in &$answers.records($words)? {
            if let ZoneRecordData::$rtype(data) = record.data() {
                let record = $answers.typed(record, data)?;
                $answers.own(picked.push(record))?;
            }
        }
        picked
    }};
}
