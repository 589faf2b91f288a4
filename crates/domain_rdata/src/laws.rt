//! Laws about the tokens and octets of data. A function uses a law by calling it in its body.
ghost use Rattle.std.specs.Prelude.{◌≡◌, [], IfSome, ℕ};
ghost use Rattle.domain_octets.specs.Text.{words_of};
ghost use Rattle.domain_rdata.specs.Zone.{HasExactOctets, HasExactText, data_text, wire_octets, rtype_of};
ghost use Rattle.domain_rdata.specs.{declared.zone_record_data.ZoneRecordData.ZoneRecordData, Scan.AreData};
ghost use Rattle.domain_rdata.specs.Scan.{RdataText};
ghost use Rattle.domain_names.specs.Name.{Tokens};

use crate::ZoneRecordData;
use domain_base::ToName;
use domain_chain_rdata::nsec_laws::{nsec_parses_back, nsec_reads_back};
use domain_chain_rdata::nsec3_laws::{
    nsec3_parses_back, nsec3_reads_back, nsec3param_parses_back, nsec3param_reads_back,
};
use domain_keys::data_laws::{dnskey_reads_back, ds_reads_back, keys_parse_back};
use domain_octets::Octets;
use domain_octets::laws::slices_hold_octets;
use domain_plain::laws::{
    a_parses_back, a_reads_back, mx_parses_back, mx_reads_back, ns_parses_back, ns_reads_back,
    soa_parses_back, soa_reads_back,
};
use domain_rrsig::laws::{rrsig_parses_back, rrsig_reads_back};

/// Tokens begin with data of a type in at most one way: the octets of the data and the tokens that
/// are left are determined (RFC 1035, section 5.1).
pub fn data_is_spelled_once<O: Octets, N: ToName>()
    ensures octets { (rtype : ℕ) (old m n : Tokens) (d e : ZoneRecordData O N)
        → RdataText O.octets N.labels rtype old d m → RdataText O.octets N.labels rtype old e n
        → wire_octets O.octets N.labels d ≡ wire_octets O.octets N.labels e }
    ensures left { (rtype : ℕ) (old m n : Tokens) (d e : ZoneRecordData O N)
        → RdataText O.octets N.labels rtype old d m
        → RdataText O.octets N.labels rtype old e n → m ≡ n }
{}

/// The words of written data scan back as these data, if their text determines them
/// (`HasExactText`).
pub fn data_is_read_back<O: Octets, N: ToName>(value: &ZoneRecordData<O, N>)
    ensures { HasExactText O.octets value.now
        → IfSome (data_text O.octets N.labels value.now) (λ text.
        RdataText O.octets N.labels (rtype_of value.now) (words_of text) value.now []) }
{
    match value {
        ZoneRecordData::A(data) => a_reads_back(data),
        ZoneRecordData::Ns(data) => ns_reads_back(data),
        ZoneRecordData::Soa(data) => soa_reads_back(data),
        ZoneRecordData::Mx(data) => mx_reads_back(data),
        ZoneRecordData::Dnskey(data) => dnskey_reads_back(data),
        ZoneRecordData::Ds(data) => ds_reads_back(data),
        ZoneRecordData::Rrsig(data) => rrsig_reads_back(data),
        ZoneRecordData::Nsec(data) => nsec_reads_back(data),
        ZoneRecordData::Nsec3(data) => {
            nsec3_parses_back(data);
            nsec3_reads_back(data);
        }
        ZoneRecordData::Nsec3param(data) => {
            nsec3param_parses_back(data);
            nsec3param_reads_back(data);
        }
        ZoneRecordData::Unknown(data) => slices_hold_octets(data.data().as_slice()),
    }
}

/// The octets of data parse back as these data, and nothing is left, if the octets determine the
/// data (`HasExactOctets`).
pub fn octets_are_read_back<O: Octets, N: ToName>(value: &ZoneRecordData<O, N>)
    ensures { HasExactOctets value.now → AreData O.octets N.labels (rtype_of value.now)
        (wire_octets O.octets N.labels value.now) value.now }
{
    match value {
        ZoneRecordData::A(data) => a_parses_back(data),
        ZoneRecordData::Ns(data) => ns_parses_back(data),
        ZoneRecordData::Soa(data) => soa_parses_back(data),
        ZoneRecordData::Mx(data) => mx_parses_back(data),
        ZoneRecordData::Dnskey(data) => keys_parse_back(data),
        ZoneRecordData::Ds(data) => keys_parse_back(data),
        ZoneRecordData::Rrsig(data) => rrsig_parses_back(data),
        ZoneRecordData::Nsec(data) => nsec_parses_back(data),
        ZoneRecordData::Nsec3(data) => nsec3_parses_back(data),
        ZoneRecordData::Nsec3param(data) => nsec3param_parses_back(data),
        ZoneRecordData::Unknown(_) => {}
    }
}
