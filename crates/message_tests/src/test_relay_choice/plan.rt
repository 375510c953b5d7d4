//! The choice, by its rows.
use mail_wire::Memory;
use relay_choice::{Demands, Form, Offer, Plan, choose};
use std::alloc::Global;
use std::test::Fail;
use test_mail::{Case, all_hold};

const NONE: Offer = Offer {
    smtputf8: false,
    eight: false,
};

const EIGHT: Offer = Offer {
    smtputf8: false,
    eight: true,
};

const BOTH: Offer = Offer {
    smtputf8: true,
    eight: true,
};

// Whether a header and octets aren't ASCII, the forms of the path and the recipient, what is offered, and what is done.
struct Choice([bool; 2], Form, Form, Offer, Plan);

impl Case for Choice {
    fn holds(&self, _alloc: Global) -> Result<bool, Memory> {
        let [header, eight] = self.0;
        let demands = Demands {
            header,
            eight,
            path: self.1,
        };
        Ok(choose(&demands, self.2, self.3) == self.4)
    }
}

const CHOICES: [(&str, &[Choice]); 9] = [
    (
        "all is sent where SMTPUTF8 is offered",
        &[
            Choice([true, true], Form::Utf8, Form::Utf8, BOTH, Plan::Send),
            Choice([false, false], Form::Normal, Form::Normal, BOTH, Plan::Send),
        ],
    ),
    (
        "a header comes before addresses",
        &[Choice(
            [true, true],
            Form::Utf8,
            Form::Utf8,
            EIGHT,
            Plan::Report5(9),
        )],
    ),
    (
        "these come before octets",
        &[Choice(
            [false, true],
            Form::Utf8,
            Form::Ascii,
            NONE,
            Plan::Report5(7),
        )],
    ),
    (
        "the path or the recipient",
        &[Choice(
            [false, true],
            Form::Ascii,
            Form::Utf8,
            NONE,
            Plan::Report5(7),
        )],
    ),
    (
        "octets come last",
        &[Choice(
            [false, true],
            Form::Ascii,
            Form::Normal,
            NONE,
            Plan::Report5(3),
        )],
    ),
    (
        "and are sent where 8BITMIME is offered",
        &[Choice(
            [false, true],
            Form::Ascii,
            Form::Normal,
            EIGHT,
            Plan::SendNormal,
        )],
    ),
    (
        "as they are, if all is ASCII",
        &[Choice([false, true], Form::Ascii, Form::Ascii, EIGHT, Plan::Send)],
    ),
    (
        "domains are written in labels where one isn't ASCII",
        &[
            Choice(
                [false, false],
                Form::Normal,
                Form::Ascii,
                NONE,
                Plan::SendNormal,
            ),
            Choice(
                [false, false],
                Form::Ascii,
                Form::Normal,
                NONE,
                Plan::SendNormal,
            ),
        ],
    ),
    (
        "and else stay",
        &[Choice([false, false], Form::Ascii, Form::Ascii, NONE, Plan::Send)],
    ),
];

#[test]
fn the_choice_is_that_of_its_row(rt: HostRuntime) -> Result<(), Fail> {
    all_hold(rt.alloc(), &CHOICES)
}
