// The number of lines not answered 0.
ghost use Rattle.std.specs.Prelude.{◌≡◌};
ghost use Rattle.reports.specs.RunReport.{refused_in};

use crate::answers::Answers;

pub(crate) fn refused_in(answers: &Answers) -> u32
    ensures { result ≡ refused_in answers.now.items }
{
    let answers = answers.as_slice();
    answers.iter().filter(|&&answer| answer != 0).count() as u32
}
