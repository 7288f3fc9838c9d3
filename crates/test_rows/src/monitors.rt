//! Monitors.

ghost use Rattle.test_rows.specs.MonitorRows.{MonitorGivesUpItsNames, MonitorIsShownWhatItsRulesFit};

/// A connection that becomes a monitor gives up its names and rules, and is shown every message.
pub fn monitor_gives_up_its_names()
    ensures { MonitorGivesUpItsNames }
{}

/// A monitor with rules is shown what one of them fits.
pub fn monitor_is_shown_what_its_rules_fit()
    ensures { MonitorIsShownWhatItsRulesFit }
{}
