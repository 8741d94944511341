use std::alloc::{AllocError, Global};
use std::fmt::Write;

/// A list in words, in which what comes often in a row stands once, behind its count.
#[derive(Drop)]
pub struct Runs {
    text: String,
    /// What came last, and how often in a row. It isn't in the text yet.
    last: String,
    count: u64,
    /// What stands between two of the list, and behind a count.
    mark: &'static str,
    times: &'static str,
}

impl Runs {
    /// An empty list.
    pub fn new(alloc: Global, mark: &'static str, times: &'static str) -> Runs {
        Runs {
            text: String::new(alloc),
            last: String::new(alloc),
            count: 0,
            mark,
            times,
        }
    }

    /// Adds what came last to the text.
    fn add_last(&mut self) -> Result<(), AllocError> {
        if self.count == 0 {
            return Ok(());
        }
        if !self.text.is_empty() {
            self.text.push_str(self.mark)?;
        }
        if self.count > 1 {
            write!(&mut self.text, "{}{}", self.count, self.times)?;
        }
        self.text.push_str(self.last.as_str())
    }

    /// Adds an item, which isn't empty.
    pub fn add(&mut self, item: String) -> Result<(), AllocError> {
        if item == self.last {
            self.count = self.count.saturating_add(1);
            return Ok(());
        }
        self.add_last()?;
        self.last = item;
        self.count = 1;
        Ok(())
    }

    /// The list.
    pub fn into_text(mut self) -> Result<String, AllocError> {
        self.add_last()?;
        Ok(self.text)
    }
}
