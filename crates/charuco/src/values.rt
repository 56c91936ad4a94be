// The result of a C function: a number, and words at the start of the caller's output array `values`, truncated to its length.
ghost use Rattle.std.specs.Prelude.{◌≡◌};
ghost use Rattle.charuco.specs.Answers.{worked as worked_with, count_told, refused as refused_by, value_count, count_word, Tells};

use refusal::Refusal;

// The low 32 bits of a count; no count is larger.
pub fn count_word(n: usize) -> u32
    ensures { result ≡ count_word n }
{
    (n % 0x1_0000_0000) as u32
}

// The result on success.
pub fn worked(values: &mut [u32], words: &[u32]) -> u32
    ensures { Tells (worked_with words.now) result values.old values.new }
{
    lent_list::put_front(values, words);
    0
}

// The number of values of an error number.
fn value_count(number: u32) -> usize
    ensures { result ≡ value_count number }
{
    if number == 7 {
        return 2;
    }
    if number == 16 {
        return 1;
    }
    0
}

// The result on error: the error number and its values.
pub fn refused(values: &mut [u32], refusal: Refusal) -> u32
    ensures { Tells (refused_by refusal) result values.old values.new }
{
    let words: [u32; 2] = [refusal.value(0), refusal.value(1)];
    let number = refusal.number();
    let count = value_count(number);
    lent_list::put_front(values, &words[..count]);
    number
}

// The result of an entry point that returns a count.
pub fn counted(values: &mut [u32], answer: Result<usize, Refusal>) -> u32
    ensures { Tells (count_told answer) result values.old values.new }
{
    match answer {
        Ok(count) => worked(values, &[count_word(count)]),
        Err(refusal) => refused(values, refusal),
    }
}
