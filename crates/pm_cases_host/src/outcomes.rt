//! Distinct outcomes in the order in which they came.

use pm_cases::{Case, say_between};
use pm_folder_store::HostError;
use std::alloc::Global;

/// An outcome, how often it came, and after which calls of the host.
struct Outcome {
    text: String,
    count: u64,
    calls: Vec<String>,
}

impl Drop for Outcome {
    fn drop(self) {
        let Outcome { text, count, calls } = self;
    }
}

/// Distinct outcomes.
pub struct Outcomes {
    alloc: Global,
    items: Vec<Outcome>,
}

impl Drop for Outcomes {
    fn drop(self) {
        let Outcomes { alloc, items } = self;
    }
}

impl Outcomes {
    /// None so far.
    pub fn new(alloc: Global) -> Outcomes {
        Outcomes {
            alloc,
            items: Vec::new(alloc),
        }
    }

    /// Adds an outcome.
    pub fn add(&mut self, text: &str) -> Result<(), HostError> {
        let at = self
            .items
            .iter()
            .position(|item| item.text.as_str() == text);
        if at.is_none() {
            let outcome = Outcome {
                text: String::from_str(self.alloc, text)?,
                count: 0,
                calls: Vec::new(self.alloc),
            };
            self.items.push(outcome)?;
        }
        let last = self.items.len().saturating_sub(1);
        if let Some(item) = self.items.get_mut(at.unwrap_or(last)) {
            item.count = item.count.saturating_add(1);
        }
        Ok(())
    }

    /// Adds an outcome that came after a call of the host.
    pub fn add_after(&mut self, text: &str, call: &str) -> Result<(), HostError> {
        self.add(text)?;
        for item in self.items.iter_mut() {
            if item.text.as_str() == text {
                add_distinct(self.alloc, &mut item.calls, call)?;
            }
        }
        Ok(())
    }

    /// Says them, with a text between them.
    pub fn say(&self, case: &mut Case, between: &str) {
        let mut is_later = false;
        for item in &self.items {
            say_between(case, is_later, between);
            case.say(item.text.as_str());
            is_later = true;
        }
    }

    /// Says how often each came, and what it is; of those that aren't faults also after which calls of the host.
    pub fn say_counts(&self, case: &mut Case) {
        let mut is_later = false;
        for item in &self.items {
            say_between(case, is_later, "; ");
            case.say_made(format!(in case.alloc(); "{} {}", item.count, item.text.as_str()));
            if !item.calls.is_empty() && !is_fault(item.text.as_str()) {
                say_calls(case, &item.calls);
            }
            is_later = true;
        }
    }
}

/// Adds a text unless it is there.
fn add_distinct(alloc: Global, texts: &mut Vec<String>, text: &str) -> Result<(), HostError> {
    if !texts.iter().any(|other| other.as_str() == text) {
        texts.push(String::from_str(alloc, text)?)?;
    }
    Ok(())
}

/// Says calls of the host in brackets.
fn say_calls(case: &mut Case, calls: &[String]) {
    let mut is_later = false;
    case.say(" [");
    for call in calls {
        say_between(case, is_later, ", ");
        case.say(call.as_str());
        is_later = true;
    }
    case.say("]");
}

/// Whether an outcome begins with an answer that says that a call failed.
fn is_fault(text: &str) -> bool {
    text.starts_with("failed ") || text.starts_with("memory ")
}
