//! The parts of a record, by their places in a line.

use domain_base::Rtype;

/// A part of a record.
#[derive(Clone, Copy)]
pub enum Part {
    /// The owner.
    Owner,
    /// The TTL.
    Ttl,
    /// The class.
    Class,
    /// The type.
    Type,
    /// Data of a type.
    Data(Rtype),
    /// Nothing more, after data of a type.
    Nothing(Rtype),
}

/// A field: its name, and its format.
pub type Field = (&'static str, &'static str);

/// The format of a name.
pub const NAME: &str = "labels of at most 63 octets with dots between them";

/// The format of octets that may be several words.
pub const BASE64: &str = "Base 64";

/// The format of octets, as several words, with two digits each.
pub const BASE16: &str = "Base 16, two digits an octet";

/// The formats of other fields.
const NUMBER8: &str = "a number from 0 to 255";

const NUMBER16: &str = "a number from 0 to 65535";

const NUMBER32: &str = "a number from 0 to 4294967295";

const TYPE: &str = "a name such as A, or TYPE and its number";

/// The format of a time: the seconds, and no date.
pub const TIME: &str = "the seconds since 1970, a number from 0 to 4294967295";

/// The fields of SOA data (RFC 1035, section 3.3.13).
const SOA_FIELDS: [Field; 7] = [
    ("name of the primary server", NAME),
    ("name of the mailbox", NAME),
    ("serial number", NUMBER32),
    ("time of refresh", NUMBER32),
    ("time of retry", NUMBER32),
    ("time of expiry", NUMBER32),
    ("MINIMUM", NUMBER32),
];

/// The fields of RRSIG data (RFC 4034, section 3.1).
const RRSIG_FIELDS: [Field; 9] = [
    ("type covered", TYPE),
    ("algorithm", NUMBER8),
    ("number of labels", NUMBER8),
    ("original TTL", NUMBER32),
    ("time of expiration", TIME),
    ("time of inception", TIME),
    ("key tag", NUMBER16),
    ("name of the signer", NAME),
    ("signature", BASE64),
];

/// The fields of NSEC3 data (RFC 5155, section 3.1). The first four are those of NSEC3PARAM data
/// (section 4.1).
const NSEC3_FIELDS: [Field; 6] = [
    ("hash algorithm", NUMBER8),
    ("field of flags", NUMBER8),
    ("number of iterations", NUMBER16),
    ("salt", "Base 16 in one word, or - for none"),
    ("next hash", "Base 32 hex in one word"),
    ("type", TYPE),
];

/// Returns the fields of the data of a type, of which the last may be several words. Empty for a
/// type without a presentation format of its own.
pub fn fields_of(rtype: Rtype) -> &'static [Field] {
    match rtype.to_int() {
        1 => &[(
            "address",
            "four numbers from 0 to 255 with dots between them",
        )],
        2 => &[("name of a server", NAME)],
        6 => &SOA_FIELDS,
        15 => &[("preference", NUMBER16), ("name of a mail exchange", NAME)],
        // RFC 4034, section 5.1.
        43 => &[
            ("key tag", NUMBER16),
            ("algorithm", NUMBER8),
            ("digest type", NUMBER8),
            ("digest", BASE16),
        ],
        46 => &RRSIG_FIELDS,
        47 => &[("next name", NAME), ("type", TYPE)],
        // RFC 4034, section 2.1.
        48 => &[
            ("field of flags", NUMBER16),
            ("protocol", NUMBER8),
            ("algorithm", NUMBER8),
            ("public key", BASE64),
        ],
        50 => &NSEC3_FIELDS,
        51 => &NSEC3_FIELDS[..4],
        _ => &[],
    }
}

/// Returns the field at a place in the data of a type, counted from 0, or the last field for any
/// place after it.
pub fn field_at(rtype: Rtype, place: usize) -> Option<Field> {
    let fields = fields_of(rtype);
    fields.get(place).or(fields.last()).copied()
}
