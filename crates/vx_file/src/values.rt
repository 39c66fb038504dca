//! What values mean by themselves: numbers, texts, points and settings.
ghost use Rattle.std.specs.Prelude.{◌≡◌, map};
ghost use Rattle.toml.specs.View.{view};
ghost use Rattle.vx_base.specs.Unread.{Gives};
ghost use Rattle.vx_file.specs.FileValues.{each, number_in, numbers_in, column_in, columns_of, columns_in, heights_of, setting_of_text, setting_in};

use std::alloc::Global;
use toml::Value;
use vx_base::Unread;
use vx_flag::{Group, Setting, State};

/// The number of 32 bits that the value is.
#[tactic(auto, unfolding(crate::specs::FileValues::number_in))]
pub fn number(value: &Value) -> Option<i32>
    ensures { result ≡ number_in (view value.now) }
{
    let number = value.as_integer()?;
    i32::try_from(number).ok()
}

/// The numbers of the array that the value is.
#[tactic(auto, unfolding(crate::specs::FileValues::numbers_in), using(crate::proofs::FileLists::data_of_view))]
pub fn numbers(alloc: Global, value: &Value) -> Result<Vec<i32>, Unread>
    ensures { Gives (λ numbers. numbers.items) result (numbers_in (view value.now)) }
{
    let Some(values) = value.as_array() else {
        return Err(Unread::Faulty);
    };
    each_number(alloc, values)
}

fn each_number(alloc: Global, values: &[Value]) -> Result<Vec<i32>, Unread>
    ensures { Gives (λ numbers. numbers.items) result (each number_in (map view values.now)) }
{
    let mut numbers = Vec::new(alloc);
    for value in values {
        let Some(n) = number(value) else {
            return Err(Unread::Faulty);
        };
        numbers.push(n)?;
    }
    Ok(numbers)
}

/// The columns of the array that the value is, two numbers each: an x and a z.
#[tactic(auto, unfolding(crate::specs::FileValues::columns_in), using(crate::proofs::FileLists::data_of_view))]
pub fn columns(alloc: Global, value: &Value) -> Result<Vec<(i32, i32)>, Unread>
    ensures { Gives (λ columns. columns.items) result (columns_in (view value.now)) }
{
    let Some(values) = value.as_array() else {
        return Err(Unread::Faulty);
    };
    each_column(alloc, values)
}

fn each_column(alloc: Global, values: &[Value]) -> Result<Vec<(i32, i32)>, Unread>
    ensures { Gives (λ columns. columns.items) result (columns_of (map view values.now)) }
{
    let mut columns = Vec::new(alloc);
    let mut rest = values;
    while let [x, z, more @ ..] = rest {
        let Some(point) = column(x, z) else {
            return Err(Unread::Faulty);
        };
        columns.push(point)?;
        rest = more;
    }
    if rest.is_empty() {
        Ok(columns)
    } else {
        Err(Unread::Faulty)
    }
}

#[tactic(auto, unfolding(crate::specs::FileValues::column_in))]
fn column(x: &Value, z: &Value) -> Option<(i32, i32)>
    ensures { result ≡ column_in (view x.now) (view z.now) }
{
    let x = number(x)?;
    let z = number(z)?;
    Some((x, z))
}

/// The lowest and the highest y that two numbers name.
#[tactic(auto, unfolding(crate::specs::FileValues::heights_of))]
pub fn heights(numbers: &[i32]) -> Option<(i32, i32)>
    ensures { result ≡ heights_of numbers.now }
{
    match numbers {
        [low, high] => Some((*low, *high)),
        _ => None,
    }
}

/// What a value sets a flag to.
#[tactic(auto, unfolding(crate::specs::FileValues::setting_in))]
pub fn setting(value: &Value) -> Option<Setting>
    ensures { result ≡ setting_in (view value.now) }
{
    setting_of(value.as_str()?)
}

#[tactic(auto, unfolding(crate::specs::FileValues::setting_of_text))]
fn setting_of(text: &str) -> Option<Setting>
    ensures { result ≡ setting_of_text text.now }
{
    match text.split_once(' ') {
        Some((state, group)) => {
            let state = State::read(state)?;
            let group = Group::read(group)?;
            Some(Setting { state, group })
        }
        None => {
            let state = State::read(text)?;
            Some(Setting {
                state,
                group: Group::All,
            })
        }
    }
}
