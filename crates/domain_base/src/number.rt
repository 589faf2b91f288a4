//! Decimal numbers.
ghost use Rattle.domain_base.specs.Scan.{IsNumber, IsNoNumber};

use crate::FromToken;
use domain_names::ScanError;

/// Parses one or more decimal digits without a sign, at most 4,294,967,295.
impl FromToken for u32 {
    ghost spells = { IsNumber 32 };

    ghost refuses = { IsNoNumber 32 };

    fn from_token(token: &str) -> Result<u32, ScanError> {
        if token.as_bytes().first() == Some(&b'+') {
            return Err(ScanError::Custom("decimal number expected"));
        }
        token
            .parse::<u32>()
            .or(Err(ScanError::Custom("decimal number expected")))
    }
}

/// Parses one or more decimal digits without a sign, at most 65,535.
impl FromToken for u16 {
    ghost spells = { IsNumber 16 };

    ghost refuses = { IsNoNumber 16 };

    fn from_token(token: &str) -> Result<u16, ScanError> {
        let number = u32::from_token(token)?;
        u16::try_from(number).or(Err(ScanError::Custom("decimal number expected")))
    }
}

/// Parses one or more decimal digits without a sign, at most 255.
impl FromToken for u8 {
    ghost spells = { IsNumber 8 };

    ghost refuses = { IsNoNumber 8 };

    fn from_token(token: &str) -> Result<u8, ScanError> {
        let number = u32::from_token(token)?;
        u8::try_from(number).or(Err(ScanError::Custom("decimal number expected")))
    }
}
