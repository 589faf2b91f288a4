//! Laws of parameters. To use a law, call it in the body of your function.
ghost use Rattle.std.specs.Prelude.{◌≡◌, ◌≢◌, [], List, ℕ};
ghost use Rattle.domain_octets.specs.Octets.{Octets};
ghost use Rattle.domain_svcb.specs.Keys.{ParameterKeyText};
ghost use Rattle.domain_svcb.specs.Values.{Parameter};
ghost use Rattle.domain_svcb.specs.Parameters.{AreGathered, AreParameters, parameters_octets};
ghost use Rattle.domain_svcb.specs.Parameters.{ParameterText, AddsParameter, RefusesParameter};
ghost use Rattle.domain_svcb.specs.declared.fault.ParameterFault.{ParameterFault, TheVariants.OutOfMemory};

/// A text spells at most one key, and at most one parameter.
pub fn texts_spell_one_parameter()
    ensures key { (text : Octets) (x y : ℕ) → ParameterKeyText text x
        → ParameterKeyText text y → x ≡ y }
    ensures parameter { (text : Octets) (p q : Parameter) → ParameterText text p
        → ParameterText text q → p ≡ q }
{}

/// A text with a fault adds no parameter. Lack of memory is no fault of the text.
pub fn refused_texts_add_none()
    ensures { (text : Octets) (before after : List Parameter) (fault : ParameterFault)
        → RefusesParameter text before fault → fault ≢ OutOfMemory
        → AddsParameter text before after → ⊥ }
{}

/// Texts gather at most one list of parameters, so they spell at most one list of octets.
pub fn texts_gather_one_list()
    ensures { (texts : List Octets) (a b : List Parameter) → AreGathered [] texts a
        → AreGathered [] texts b → a ≡ b }
{}

/// The octets of parameters that are gathered from texts are parameters on the wire: their keys
/// rise, and their values are well-formed.
pub fn gathered_parameters_are_parameters()
    ensures { (texts : List Octets) (all : List Parameter) → AreGathered [] texts all
        → AreParameters 0 (parameters_octets all) }
{}
