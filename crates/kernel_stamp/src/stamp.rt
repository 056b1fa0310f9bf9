//! The ids and dates of a kernel's messages.

ghost use Rattle.std.specs.Prelude.{◌≡◌, ◌<◌, IfOk, string_bytes};
ghost use Rattle.jmsg_envelope.specs.Stamp.{numbered, numbered-differ};
ghost use Rattle.kernel_stamp.specs.Dates.{days_of, digit, has_form, is_day, is_in_range, is_leap, is_time};
ghost use Rattle.kernel_stamp.specs.Dates.{is_utc_date, two_digits, zeroed};

use jiff::{Error, Timestamp};
use jmsg_envelope::Stamp;
use std::alloc::{AllocError, Global};
use std::time::{Clock, Instant};

/// A session of a kernel: ids are a label and a number after it, and dates those of a clock (RFC 3339, in UTC, with
/// microseconds).
#[derive(Drop)]
pub struct KernelStamp<C> {
    /// Where dates come from.
    clock: C,
    /// The session's text.
    session: String,
    /// What stands before the number of an id.
    label: String,
}

impl<C> KernelStamp<C> {
    /// The stamp of this session, whose ids begin with the label.
    pub fn new(clock: C, session: String, label: String) -> KernelStamp<C>
        ensures session { string_bytes result.session ≡ string_bytes session }
        ensures label { string_bytes result.label ≡ string_bytes label }
    {
        KernelStamp {
            clock,
            session,
            label,
        }
    }
}

impl<C: Clock> Stamp for KernelStamp<C> {
    ghost stamp = { record {
      meaning = λ stamp. record {
        session = string_bytes stamp.session;
        label = string_bytes stamp.label;
      };
      id_text = numbered;
      is_date = λ _ text. is_utc_date text;
    } };

    ghost ids_differ = { numbered-differ };

    fn session(&self) -> &str {
        self.session.as_str()
    }

    fn id(&self, alloc: Global, n: u64) -> Result<String, AllocError> {
        let label = self.label.as_str();
        format!(in alloc; "{label}{n}")
    }

    fn date(&mut self, alloc: Global) -> Result<String, AllocError> {
        let text = match date_now(&self.clock, alloc) {
            Ok(text) => text,
            Err(Error::OutOfMemory) => return Err(AllocError),
            Err(_) => String::from_str(alloc, "1970-01-01T00:00:00.000000Z")?,
        };
        if is_utc_date(alloc, text.as_bytes())? {
            Ok(text)
        } else {
            Err(AllocError)
        }
    }
}

/// The date that a clock reads.
///
/// # Errors
///
/// `OutOfMemory` if there is no memory for the text, and another if the clock can't be read.
fn date_now<C: Clock>(clock: &C, alloc: Global) -> Result<String, Error> {
    Timestamp::now(clock)?.strftime(alloc, b"%Y-%m-%dT%H:%M:%S%.6fZ".as_slice())
}

/// Whether a clock can be read. Messages have their dates from it, and what may last for some time is measured by it:
/// without it they have the first date of 1970, and no time passes.
pub fn can_be_read<C: Clock>(clock: &C) -> bool {
    Timestamp::now(clock).is_ok() && Instant::now(clock).is_ok()
}

/// Whether a text is a date in UTC with microseconds (RFC 3339, "Internet Date/Time Format"): in its form, and in its
/// ranges.
///
/// # Errors
///
/// If an allocation is refused.
pub fn is_utc_date(alloc: Global, text: &[u8]) -> Result<bool, AllocError>
    ensures { IfOk result (λ is. is ≡ is_utc_date text.now) }
{
    let has_form = has_form(alloc, text)?;
    Ok(has_form && is_in_range(text))
}

/// Whether a text has the form of such a date.
///
/// # Errors
///
/// If an allocation is refused.
fn has_form(alloc: Global, text: &[u8]) -> Result<bool, AllocError>
    ensures { IfOk result (λ has. has ≡ has_form text.now) }
{
    let form: Vec<u8> = text.iter().map(|octet| zeroed(*octet)).collect(alloc)?;
    Ok(form.as_slice() == b"0000-00-00T00:00:00.000000Z".as_slice())
}

/// Whether what a text says is in the ranges of a date, if it has the form of one.
fn is_in_range(text: &[u8]) -> bool
    ensures { result ≡ is_in_range text.now }
{
    let year = 100 * two_digits(text, 0) + two_digits(text, 2);
    is_day(year, two_digits(text, 5), two_digits(text, 8)) && is_time(text)
}

/// Whether there is such a day.
fn is_day(year: u32, month: u32, day: u32) -> bool
    ensures { result ≡ is_day year month day }
{
    if month < 1 || 12 < month {
        return false;
    }
    1 <= day && day <= days_of(year, month)
}

/// Whether there is such a time of day, as far as the form says one.
fn is_time(text: &[u8]) -> bool
    ensures { result ≡ is_time text.now }
{
    if 23 < two_digits(text, 11) {
        return false;
    }
    two_digits(text, 14) <= 59 && two_digits(text, 17) <= 60
}

/// How many days a month has.
fn days_of(year: u32, month: u32) -> u32
    ensures { result ≡ days_of year month }
{
    match month {
        2 => { if is_leap(year) { 29 } else { 28 } }
        4 | 6 | 9 | 11 => 30,
        _ => 31,
    }
}

/// Whether a year is a leap year.
fn is_leap(year: u32) -> bool
    ensures { result ≡ is_leap year }
{
    (year % 4 == 0 && year % 100 != 0) || year % 400 == 0
}

/// The number of two digits.
fn two_digits(text: &[u8], place: usize) -> u32
    requires { place < 64 }
    ensures number { result ≡ two_digits text.now place }
    ensures small { result < 4096 }
{
    10 * digit(text, place) + digit(text, place + 1)
}

/// The number that a digit is.
fn digit(text: &[u8], place: usize) -> u32
    ensures number { result ≡ digit text.now place }
    ensures small { result < 256 }
{
    match text.get(place) {
        Some(octet) => u32::from(octet.saturating_sub(b'0')),
        None => 0,
    }
}

/// An octet, or 0 for each digit.
fn zeroed(octet: u8) -> u8
    ensures { result ≡ zeroed octet }
{
    if octet.is_ascii_digit() { b'0' } else { octet }
}
