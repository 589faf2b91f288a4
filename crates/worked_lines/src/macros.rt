//! Macros that add lines to an answer.

/// Evaluates to the value that was made, or ends the function with the error as the answer. Use it
/// in place of `ok` with `?` for values that can't be passed to `ok`.
#[macro_export]
macro_rules! given {
    ($answers:ident, $made:expr) => {
        match $made {
            Ok(value) => value,
            Err(error) => {
                $answers.debug("refused", &error);
                return None;
            }
        }
    };
}

/// Adds values, each after its label and printed by a method of the answers.
#[macro_export]
macro_rules! say {
    ($answers:ident, $($print:ident $label:literal: $value:expr),* $(,)?) => {{
        $($answers.$print($label, &$value);)*
        Some(())
    }};
}

/// Adds fields of a value, each after its label.
#[macro_export]
macro_rules! say_fields {
    ($answers:ident, $value:ident, $($label:literal: $field:ident),*) => {{
        $($answers.show($label, &$value.$field());)*
        Some(())
    }};
}

/// Adds what methods return for a value and another one, each after the method's name.
#[macro_export]
macro_rules! say_methods {
    ($answers:ident, $value:ident.($($method:ident)*)($other:expr)) => {{
        $($answers.debug(stringify!($method), &$value.$method($other));)*
        Some(())
    }};
}

/// Adds a value over owned octets, over shared octets, and over arrays of two octets.
#[macro_export]
macro_rules! say_each {
    ($answers:ident.$print:ident, $value:expr, $kind:ident) => {{
        let (alloc, value) = ($answers.alloc, $value);
        $answers.$print("Vec", &converted::<_, $kind<Vec<u8>>>(alloc, value));
        $answers.$print("Bytes", &converted::<_, $kind<Bytes>>(alloc, value));
        $answers.$print("ArrayBuilder<2>", &converted::<_, $kind<Two>>(alloc, value))
    }};
}

/// Adds a value as octets, and the numbers of the `$times` values that are read from them.
#[macro_export]
macro_rules! say_composed {
    ($answers:ident, $value:ident, $type:ident, $times:literal) => {{
        let mut octets = Vec::new($answers.alloc);
        $answers.done("composed", &$value.compose(&mut octets))?;
        $answers.octets("octets", &octets);
        let mut parser = Parser::new(octets.as_slice());
        for _ in 0..$times {
            match $type::parse(&mut parser) {
                Ok(parsed) => $answers.show("parsed", &parsed.into_int()),
                Err(error) => $answers.debug("refused", &error),
            };
        }
        Some(())
    }};
}
