use gi_calls::Answer;

/// What a call answers several times.
pub trait Shown {
    /// Adds it to the text.
    fn add_to(&self, text: &mut Answer);
}

/// Answers one after the other, with commas between them; equal ones that follow each other are
/// counted.
#[derive(Drop)]
pub struct Runs<T: Shown + PartialEq + Drop> {
    last: Option<T>,
    count: u64,
    is_first: bool,
}

impl<T: Shown + PartialEq + Drop> Runs<T> {
    /// No answer yet.
    pub fn new() -> Runs<T> {
        Runs {
            last: None,
            count: 0,
            is_first: true,
        }
    }

    /// Takes an answer; where it is another one than the last, those before it are added.
    pub fn add(&mut self, answer: T, text: &mut Answer) {
        let answer = Some(answer);
        if self.last != answer {
            self.close(text);
            self.last = answer;
        }
        self.count = self.count.saturating_add(1);
    }

    /// Adds the last answers, which are equal.
    pub fn close(&mut self, text: &mut Answer) {
        let Some(last) = &self.last else {
            return;
        };
        if !self.is_first {
            text.add(", ");
        }
        if self.count > 1 {
            text.show(self.count);
            text.add(" times ");
        }
        last.add_to(text);
        self.is_first = false;
        self.count = 0;
    }
}
