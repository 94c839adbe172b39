// The board's answers in plain numbers, as a host in another language takes them: the result of a call, 0 or a
// refusal's number; and in lent places an issue number and who overloads in which branch, each left as it was where the
// answer has no such value.
#![tactic(auto)]

ghost use Rattle.std.specs.Prelude.{◌≡◌};
ghost use Rattle.host_words.specs.Words.{result_of, who_over, branch_over, issue_over};

use model::Answer;
use refusal::Refusal;

// The result of a call.
pub fn result_of(a: Answer) -> u32
    ensures { result ≡ result_of a }
{
    match a {
        Answer::Refused(f) => refusal::number(f),
        _ => 0,
    }
}

// A card's number.
pub fn tell_issue(a: Answer, issue: &mut u32) -> u32
    ensures value { result ≡ result_of a }
    ensures issue_after { issue.new ≡ issue_over a issue.old }
{
    if let Answer::Issue(n) = a {
        *issue = n;
    }
    result_of(a)
}

// Who overloads in which branch.
pub fn tell_fault(a: Answer, who: &mut u32, branch: &mut u32) -> u32
    ensures value { result ≡ result_of a }
    ensures who_after { who.new ≡ who_over a who.old }
    ensures branch_after { branch.new ≡ branch_over a branch.old }
{
    if let Answer::Refused(Refusal::Overload(i, b) | Refusal::Injection(i, b)) = a {
        *who = i;
        *branch = b;
    }
    result_of(a)
}

// A transistor's number, or who overloads in which branch.
pub fn tell_placed(a: Answer, number: &mut u32, who: &mut u32, branch: &mut u32) -> u32
    ensures value { result ≡ result_of a }
    ensures number_after { number.new ≡ issue_over a number.old }
    ensures who_after { who.new ≡ who_over a who.old }
    ensures branch_after { branch.new ≡ branch_over a branch.old }
{
    tell_issue(a, number);
    tell_fault(a, who, branch)
}
