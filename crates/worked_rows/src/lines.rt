//! What command lines ask for.
ghost use Rattle.std.specs.Prelude.{◌≡◌, ◌-◌, ◌^◌, None, Some, codes};
ghost use Rattle.command_text.specs.Requests.{request, Plain, Refuse, Submit, Budget, Fatal};
ghost use Rattle.command_text.specs.declared.rules.FatalRule.TheVariants as fatal;
ghost use Rattle.command_text.specs.declared.rules.SessionRule.TheVariants.{UnknownCommand, MalformedWords, MalformedName};
ghost use Rattle.job_plan.specs.declared.form.Form.TheVariants.{Apply};
ghost use Rattle.text_words.specs.Words.{words};

/// Too few or too many words and a malformed number are S2, before a malformed name, S3; an unknown
/// command is S1.
pub fn refusals()
    ensures unknown { request (words (codes "foo B")) ≡ Plain (Refuse UnknownCommand) }
    ensures few { request (words (codes "apply B f")) ≡ Plain (Refuse MalformedWords) }
    ensures many { request (words (codes "apply B f A 5 6")) ≡ Plain (Refuse MalformedWords) }
    ensures number { request (words (codes "apply B! f A x")) ≡ Plain (Refuse MalformedWords) }
    ensures name { request (words (codes "apply B! f A 5")) ≡ Plain (Refuse MalformedName) }
    ensures length { request (words (codes "matrix A x")) ≡ Fatal fatal.MalformedWords }
    ensures above { request (words (codes "matrix A 268435457")) ≡ Fatal fatal.BodyTooLong }
{}

/// A fourth word behind `apply` is the thunk, and `mask` with a name may stand behind either form.
pub fn jobs()
    ensures unary { request (words (codes "apply B f A")) ≡ Plain (Submit (record {
      output = codes "B";
      form = Apply (codes "f") None (codes "A");
      mask = None;
    })) }
    ensures index { request (words (codes "apply B f A -1")) ≡ Plain (Submit (record {
      output = codes "B";
      form = Apply (codes "f") (Some (2 ^ 64 - 1)) (codes "A");
      mask = None;
    })) }
    ensures masked { request (words (codes "apply B f A mask M")) ≡ Plain (Submit (record {
      output = codes "B";
      form = Apply (codes "f") None (codes "A");
      mask = Some (codes "M");
    })) }
    ensures blanks { request (words (codes "  budget  ")) ≡ Plain Budget }
{}
