//! How what is drawn looks: attributes, each with a blank before it.

use text9::Style;

/// How a line, a text or a shape looks.
#[derive(Clone, Copy)]
pub(crate) enum Look {
    Arrow,
    Bold,
    Bracket,
    BreakingBox,
    BreakingDigits,
    Dashes,
    Gap,
    Headline,
    LimitLine,
    Line,
    Name,
    Note,
    Pale,
    PaleBox,
    Passed,
    PassedLine,
    PlainBox,
    PlainDigits,
    Says,
    Small,
    Time,
    Wire,
    WireLetter,
}

impl Look {
    /// Its attributes in this style.
    pub(crate) fn attributes(self, style: Style) -> &'static str {
        match style {
            Style::Own => self.own_attributes(),
            Style::Page => self.class(),
        }
    }

    /// Its own attributes.
    fn own_attributes(self) -> &'static str {
        match self {
            Look::Arrow => " fill=\"#b00020\" stroke=\"#000000\"",
            Look::Bold => " font-weight=\"bold\"",
            Look::Bracket => " fill=\"none\" stroke=\"#444444\"",
            Look::BreakingBox => " fill=\"#b00020\" stroke=\"#000000\" stroke-width=\"2.5\"",
            Look::BreakingDigits => " fill=\"#ffffff\" font-weight=\"bold\"",
            Look::Dashes => " stroke=\"#444444\" stroke-dasharray=\"3 2\"",
            Look::Gap => " fill=\"#ffffff\"",
            Look::Headline => " font-size=\"16\" font-weight=\"bold\"",
            Look::LimitLine => " stroke=\"#000000\" stroke-dasharray=\"6 3\"",
            Look::Line => " stroke=\"#444444\"",
            Look::Name => "",
            Look::Note => " font-size=\"11\" fill=\"#555555\"",
            Look::Pale => " fill=\"#666666\"",
            Look::PaleBox => " fill=\"#ffffff\" stroke=\"#999999\" stroke-dasharray=\"3 2\"",
            Look::Passed => " fill=\"#b00020\" font-weight=\"bold\"",
            Look::PassedLine => " stroke=\"#b00020\" stroke-width=\"2\"",
            Look::PlainBox => " fill=\"#f2f2f2\" stroke=\"#444444\"",
            Look::PlainDigits => " fill=\"#000000\"",
            Look::Says => " font-size=\"11\"",
            Look::Small => " font-size=\"9\" fill=\"#555555\"",
            Look::Time => " fill=\"#333333\"",
            Look::Wire => " stroke=\"#bbbbbb\"",
            Look::WireLetter => " font-size=\"14\" font-weight=\"bold\"",
        }
    }

    /// Its class on a page.
    fn class(self) -> &'static str {
        match self {
            Look::Arrow => " class=\"arrow\"",
            Look::Bold => " class=\"bold\"",
            Look::Bracket | Look::Dashes | Look::Line => " class=\"line\"",
            Look::BreakingBox => " class=\"byte now\"",
            Look::BreakingDigits => " class=\"now\"",
            Look::Gap => " class=\"gap\"",
            Look::Headline | Look::Name | Look::PlainDigits => "",
            Look::LimitLine => " class=\"limit\"",
            Look::Note | Look::Says => " class=\"note\"",
            Look::Pale | Look::Time => " class=\"pale\"",
            Look::PaleBox => " class=\"byte pale\"",
            Look::Passed | Look::PassedLine => " class=\"passed\"",
            Look::PlainBox => " class=\"byte\"",
            Look::Small => " class=\"small\"",
            Look::Wire => " class=\"wire\"",
            Look::WireLetter => " class=\"letter\"",
        }
    }
}
