//! The words after the program's name.
ghost use Rattle.std.specs.Prelude.{◌≡◌};
ghost use Rattle.lab_calls.specs.Tasks.{IsSized, task_of};

use crate::tasks::Task;
use lab_words::{Order, order};
use seata_types::Text;

/// What is done for words.
pub fn task_of(words: &[Text]) -> Task
    ensures exact { result ≡ task_of words.now }
    ensures size { IsSized result }
{
    match order(words) {
        Some(Order::Replay) => Task::Replay,
        Some(Order::Run { workers }) => Task::Run { workers },
        Some(Order::Frames) => Task::Frames,
        Some(Order::Make { number, size }) => Task::Make { number, size },
        Some(
            Order::Stress {
                number,
                size,
                workers,
            },
        ) => Task::Stress {
            number,
            size,
            workers,
        },
        Some(Order::Show) => Task::Show,
        Some(Order::Audit) => Task::Audit,
        None => Task::Usage,
    }
}
