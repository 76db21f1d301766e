//! What the line of a job asks for. Each form of job has a function that reads its words.
ghost use Rattle.std.specs.Prelude.{◌≡◌, map, Ok, Err, Some, None, MatchResult};
ghost use Rattle.std.specs.Option.{option_map};
ghost use Rattle.matrix_market.specs.Values.{value_word};
ghost use Rattle.text_words.specs.Words.{words};
ghost use Rattle.command_text.specs.inner.Lent.{lent};
ghost use Rattle.command_text.specs.inner.Words.{words_of_job, words_of_verb};
ghost use Rattle.command_text.specs.Requests as spec;
ghost use Rattle.command_text.specs.Readings.{form_of, name_of, submission_of};
ghost use Rattle.job_plan.specs.Form.{found, mapped, mask_found};
ghost use Rattle.job_plan.specs.declared.form.Form.TheVariants as forms;

use crate::line_words::LineWords;
use crate::name::Name;
use crate::rules::SessionRule;
use job_plan::Form;
use matrix_market::parse_value;

/// A job that is to be queued: the name that it will bind, its form, and the name of its mask, if
/// it has one.
#[derive(Clone, Copy)]
pub struct Submission<'a> {
    pub output: Name<'a>,
    pub form: Form<Name<'a>, Name<'a>>,
    pub mask: Option<Name<'a>>,
}

/// A word of a line.
type Word<'a> = &'a [u8];

/// The commands of jobs.
#[derive(Clone, Copy)]
enum Verb {
    Apply,
    Select,
    Union,
    Both,
    Product,
    Reduce,
}

/// A job as its words have it, which may be no names.
#[derive(Clone, Copy)]
struct JobWords<'a> {
    output: Word<'a>,
    form: Form<Word<'a>, Word<'a>>,
    mask: Option<Word<'a>>,
}

/// The command of jobs that a word is, if it is one.
fn verb_of(command: &[u8]) -> Option<Verb>
    ensures { option_map words_of_verb result ≡ spec.words_of command.now }
{
    if command == b"apply".as_slice() {
        Some(Verb::Apply)
    } else if command == b"select".as_slice() {
        Some(Verb::Select)
    } else if command == b"union".as_slice() {
        Some(Verb::Union)
    } else if command == b"both".as_slice() {
        Some(Verb::Both)
    } else if command == b"product".as_slice() {
        Some(Verb::Product)
    } else if command == b"reduce".as_slice() {
        Some(Verb::Reduce)
    } else {
        None
    }
}

/// The words of a job, if nothing or `mask M` stands behind those of its form.
fn with_mask<'a>(
    output: Word<'a>,
    form: Form<Word<'a>, Word<'a>>,
    rest: &[Word<'a>],
) -> Option<JobWords<'a>>
    ensures { option_map words_of_job result ≡
        spec.with_mask output.now (Some (mapped lent lent form.entry)) (map lent rest.now) }
{
    let mask = match rest {
        [] => None,
        [word, mask] if *word == b"mask".as_slice() => Some(*mask),
        _ => return None,
    };
    Some(JobWords { output, form, mask })
}

/// `OUT F A`, behind `apply`.
fn apply_words<'a>(words: &[Word<'a>]) -> Option<JobWords<'a>>
    ensures { option_map words_of_job result ≡ spec.apply_words (map lent words.now) }
{
    let [output, operator, operand, rest @ ..] = words else {
        return None;
    };
    let form = Form::Apply {
        operator: *operator,
        thunk: None,
        operand: *operand,
    };
    with_mask(output, form, rest)
}

/// `OUT F A THUNK`, behind `apply`.
fn thunk_words<'a>(words: &[Word<'a>]) -> Option<JobWords<'a>>
    ensures { option_map words_of_job result ≡ spec.thunk_words (map lent words.now) }
{
    let [output, operator, operand, thunk, rest @ ..] = words else {
        return None;
    };
    let form = Form::Apply {
        operator: *operator,
        thunk: Some(parse_value(thunk)?),
        operand: *operand,
    };
    with_mask(output, form, rest)
}

/// `OUT F A THUNK`, behind `select`.
fn select_words<'a>(words: &[Word<'a>]) -> Option<JobWords<'a>>
    ensures { option_map words_of_job result ≡ spec.select_words (map lent words.now) }
{
    let [output, operator, operand, thunk, rest @ ..] = words else {
        return None;
    };
    let form = Form::Select {
        operator: *operator,
        thunk: parse_value(thunk)?,
        operand: *operand,
    };
    with_mask(output, form, rest)
}

/// `OUT F A B`, behind `union`.
fn union_words<'a>(words: &[Word<'a>]) -> Option<JobWords<'a>>
    ensures { option_map words_of_job result ≡ spec.pair_words forms.Union (map lent words.now) }
{
    let [output, operator, left, right, rest @ ..] = words else {
        return None;
    };
    let form = Form::Union {
        operator: *operator,
        left: *left,
        right: *right,
    };
    with_mask(output, form, rest)
}

/// `OUT F A B`, behind `both`.
fn both_words<'a>(words: &[Word<'a>]) -> Option<JobWords<'a>>
    ensures { option_map words_of_job result ≡ spec.pair_words forms.Both (map lent words.now) }
{
    let [output, operator, left, right, rest @ ..] = words else {
        return None;
    };
    let form = Form::Both {
        operator: *operator,
        left: *left,
        right: *right,
    };
    with_mask(output, form, rest)
}

/// `OUT ADD MUL A B`, behind `product`.
fn product_words<'a>(words: &[Word<'a>]) -> Option<JobWords<'a>>
    ensures { option_map words_of_job result ≡ spec.product_words (map lent words.now) }
{
    let [output, add, mul, left, right, rest @ ..] = words else {
        return None;
    };
    let form = Form::Product {
        add: *add,
        mul: *mul,
        left: *left,
        right: *right,
    };
    with_mask(output, form, rest)
}

/// `OUT F A`, behind `reduce`.
fn reduce_words<'a>(words: &[Word<'a>]) -> Option<JobWords<'a>>
    ensures { option_map words_of_job result ≡ spec.reduce_words (map lent words.now) }
{
    let [output, operator, operand, rest @ ..] = words else {
        return None;
    };
    let form = Form::Reduce {
        operator: *operator,
        operand: *operand,
    };
    with_mask(output, form, rest)
}

/// The words behind a command of jobs, as those of a job.
fn read_words<'a>(verb: Verb, words: &[Word<'a>]) -> Option<JobWords<'a>>
    ensures { option_map words_of_job result ≡ words_of_verb verb (map lent words.now) }
{
    match verb {
        // The two differ in their number of words, so at most one of them reads the line.
        Verb::Apply => match apply_words(words) {
            Some(job) => Some(job),
            None => thunk_words(words),
        },
        Verb::Select => select_words(words),
        Verb::Union => union_words(words),
        Verb::Both => both_words(words),
        Verb::Product => product_words(words),
        Verb::Reduce => reduce_words(words),
    }
}

/// The form of the names that its words are.
fn name_form<'a>(form: Form<Word<'a>, Word<'a>>) -> Option<Form<Name<'a>, Name<'a>>>
    ensures { option_map form_of result ≡ found spec.named spec.named (mapped lent lent form.entry) }
{
    form.map(Name::new, Name::new).transpose()
}

/// The name of the mask, if it has one: None where that is no name.
fn name_mask(mask: Option<Word<'_>>) -> Option<Option<Name<'_>>>
    ensures { option_map (option_map name_of) result ≡ mask_found spec.named (option_map lent mask.entry) }
{
    match mask {
        None => Some(None),
        Some(word) => Some(Some(Name::new(word)?)),
    }
}

/// The job, if each of its words is a name.
fn name_job(words: JobWords<'_>) -> Option<Submission<'_>>
    ensures { option_map submission_of result ≡ spec.job_named (words_of_job words.entry) }
{
    Some(Submission {
        output: Name::new(words.output)?,
        form: name_form(words.form)?,
        mask: name_mask(words.mask)?,
    })
}

/// The job that a command asks for with the words behind it.
///
/// # Errors
///
/// `UnknownCommand`, `MalformedWords` or `MalformedName`.
pub fn parse_job<'a>(command: &[u8], rest: &'a [u8]) -> Result<Submission<'a>, SessionRule>
    ensures { MatchResult result
        (λ s. spec.job_asked command.now (words rest.now) ≡ Ok (spec.Submit (submission_of s)))
        (λ rule. spec.job_asked command.now (words rest.now) ≡ Err rule) }
{
    let verb = verb_of(command).ok_or(SessionRule::UnknownCommand)?;
    let line = LineWords::read(rest).ok_or(SessionRule::MalformedWords)?;
    let job = read_words(verb, line.as_slice()).ok_or(SessionRule::MalformedWords)?;
    name_job(job).ok_or(SessionRule::MalformedName)
}
