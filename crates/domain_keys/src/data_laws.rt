//! Laws of the octets and the printed forms of keys and digests (RFC 4034, sections 2 and 5). To
//! use a law, call it in the body of your function.
ghost use Rattle.domain_octets.specs.Text.{words_of};
ghost use Rattle.domain_fields.specs.Layout.{ParsesBack};
ghost use Rattle.domain_codecs.specs.declared.codec.Codec.TheVariants.{Base16, Base64};
ghost use Rattle.domain_keys.specs.Keys.{key_fields, key_values, dnskey_text, ds_text, KeyText};

use crate::{Dnskey, Ds, KeyData, KeyKind};
use domain_octets::Octets;

/// The octets of DNSKEY or DS data are read as these fields, in no other way, and nothing is left.
pub fn keys_parse_back<O: Octets, K: KeyKind>(value: &KeyData<O, K>)
    ensures { ParsesBack key_fields (key_values value.now) }
{
    let _fields = value.fields();
}

/// The words of printed DNSKEY data spell these data.
pub fn dnskey_reads_back<O: Octets>(value: &Dnskey<O>)
    ensures { KeyText Base64 (words_of (dnskey_text value.now)) value.now }
{
    let _fields = value.fields();
}

/// The words of printed DS data spell these data.
pub fn ds_reads_back<O: Octets>(value: &Ds<O>)
    ensures { KeyText Base16 (words_of (ds_text value.now)) value.now }
{
    let _fields = value.fields();
}
