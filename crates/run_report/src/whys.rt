ghost use Rattle.std.specs.Prelude.{◌≡◌, ◌≤◌, length};
ghost use Rattle.run_report.specs.Names.{name_of_why};

use certificate_checker::Why;

/// The name of what is wrong with a certificate, as reports print it.
pub fn why_name(why: Why) -> &'static str
    ensures name { result.now ≡ name_of_why why }
    ensures short { length result.now ≤ 32 }
{
    match why {
        Why::ChoiceLength => "ChoiceLength",
        Why::ChoiceVersion => "ChoiceVersion",
        Why::ChoiceMissed => "ChoiceMissed",
        Why::WrongDistortion => "WrongDistortion",
        Why::NoNode => "NoNode",
        Why::UnitRange => "UnitRange",
        Why::UnitFixed => "UnitFixed",
        Why::DueOrder => "DueOrder",
        Why::WindowEmpty => "WindowEmpty",
        Why::ProgramRange => "ProgramRange",
        Why::LambdaLimit => "LambdaLimit",
        Why::RunOpen => "RunOpen",
        Why::RunWrong => "RunWrong",
        Why::ExtraNode => "ExtraNode",
        Why::BoundHigh => "BoundHigh",
    }
}
