//! Small calls of the program, and what comes of each.
use crate::stage::{Call, Ended};
use std::alloc::{AllocError, Global};
use worked_missions::{COUNT, SEVEN, SUM, changed, unfolded};

/// A call, and what comes of it.
pub struct Case {
    pub call: Call<'static>,
    /// Texts of the call's mission and what stands in their place.
    pub changes: &'static [(&'static str, &'static str)],
    pub status: u8,
    /// What is written. A line of several channels stands for one of each.
    pub text: &'static str,
    /// How many entries the bus has carried.
    pub entries: usize,
}

impl Case {
    /// The text of the mission.
    pub fn mission(&self, alloc: Global) -> Result<String, AllocError> {
        changed(alloc, self.call.mission, self.changes)
    }

    /// What came of the call that is not as here.
    pub fn mistake(
        &self,
        alloc: Global,
        ended: &Ended,
    ) -> Result<Option<&'static str>, AllocError> {
        if ended.status != self.status {
            return Ok(Some("the status"));
        }
        if ended.text != unfolded(alloc, self.text)? {
            return Ok(Some("the text"));
        }
        if ended.entries != self.entries {
            return Ok(Some("the entries"));
        }
        Ok(None)
    }
}

const RUN: Call = Call {
    words: "run",
    mission: SUM,
    step: 100_000,
    failing_reads: &[],
    failing_writes: &[],
};

const CHECK: Call = Call {
    words: "check",
    step: 7,
    ..RUN
};

// A mission that is checked. The bus carries nothing.
const CHECKING: Case = Case {
    call: CHECK,
    changes: &[],
    status: 0,
    text: CHECKED,
    entries: 0,
};

const CHECKED: &str = "check channels 4 cycles 2 blocks 1
rounds 2
writes 1
join 1
row 0 task sum b0.0 = (b0.0 + in0)
";

const CHECKED_COUNT: &str = "check channels 5 cycles 12 blocks 8
rounds 2
writes 1
join 3
row 0 task count b0.0 = (b0.0 + 1)
";

const CHECKED_SEVEN: &str = "check channels 7 cycles 10 blocks 4
rounds 3
writes 2
join -
row 0 task sums b0.0 = (b0.0 + in0)
row 0 task sums b0.1 = (b0.1 + in1)
row 0 task sums b0.2 = (b0.2 - in2)
row 0 task sums b0.3 = (b0.3 + (in3 * cycle))
row 1 task sums b0.0 = (b0.0 + in0)
row 1 task sums b0.1 = (b0.1 + in1)
row 1 task sums b0.2 = (b0.2 - in2)
row 1 task sums b0.3 = (b0.3 + (in3 * cycle))
row 1 task products b1.0 = (b0.0 * b0.1)
row 1 task products b1.1 = (b0.2 / (b0.0 + 1))
row 1 task products b1.2 = (b0.3 % 7)
row 1 task products b1.3 = -b1.0
";

static CHECKS: [Case; 5] = [
    CHECKING,
    Case {
        changes: &[(
            "outputs",
            "fault = [{ kind = 'restart', cycle = 0, channel = 1 }]\noutputs",
        )],
        ..CHECKING
    },
    Case {
        call: Call {
            mission: COUNT,
            ..CHECK
        },
        text: CHECKED_COUNT,
        ..CHECKING
    },
    // A row may be empty, and an expression is written in its canonical form.
    Case {
        call: Call {
            mission: COUNT,
            ..CHECK
        },
        changes: &[
            ("b0.0 + 1", "b0.0+ 1"),
            ("[[\"count\"]]", "[[\"count\"], []]"),
        ],
        text: CHECKED_COUNT,
        ..CHECKING
    },
    Case {
        call: Call {
            mission: SEVEN,
            ..CHECK
        },
        text: CHECKED_SEVEN,
        ..CHECKING
    },
];

/// Missions that are checked.
pub fn checks() -> &'static [Case] {
    &CHECKS
}

const EIGHT_CHANNELS: (&str, &str) = ("channels = 4", "channels = 8");

const UNKNOWN_TASK: (&str, &str) = ("[[\"sum\"]]", "[[\"add\"]]");

// Bytes that are no mission. The bus carries nothing.
const REFUSED: Case = Case {
    call: RUN,
    changes: &[],
    status: 3,
    text: "mission: unknown table[0][0]\n",
    entries: 0,
};

static REFUSALS: [Case; 7] = [
    Case {
        call: Call { mission: "", ..RUN },
        text: "mission: missing core\n",
        ..REFUSED
    },
    Case {
        call: Call {
            mission: "[core",
            ..RUN
        },
        text: "mission: not-toml -\n",
        ..REFUSED
    },
    Case {
        changes: &[EIGHT_CHANNELS],
        text: "mission: out-of-range core.channels\n",
        ..REFUSED
    },
    Case {
        changes: &[UNKNOWN_TASK],
        ..REFUSED
    },
    Case {
        changes: &[("b0.0 + in0", "b0.0 +")],
        text: "mission: bad-expr task[0].writes[0].w0 at 6\n",
        ..REFUSED
    },
    // Of two faults the first is told.
    Case {
        changes: &[EIGHT_CHANNELS, UNKNOWN_TASK],
        text: "mission: out-of-range core.channels\n",
        ..REFUSED
    },
    Case {
        changes: &[UNKNOWN_TASK, ("outputs = [\"b0.0\"]", "outputs = []")],
        ..REFUSED
    },
];

/// Bytes that are no mission.
pub fn refusals() -> &'static [Case] {
    &REFUSALS
}

// Words that are no command. The source fails at once, so that it is seen not to be read.
static UNKNOWN: Case = Case {
    call: Call {
        words: "fly",
        failing_reads: &[0],
        ..RUN
    },
    changes: &[],
    status: 2,
    text: "usage: guards run [--trace] [--last K] | check | demo N | audit\n",
    entries: 0,
};

/// Words that are no command.
pub fn unknown() -> &'static Case {
    &UNKNOWN
}

const BEGUN: &str = "guards channels 4 cycles 2
cycle 0 active 0,1,2,3 transfer -
ch 0,1,2,3 in 5 vote 5 judged - alpha 0,0,0,0
end removed - joined - remaining -
";

static FAULTS: [Case; 4] = [
    Case {
        call: Call {
            failing_reads: &[0],
            ..RUN
        },
        changes: &[],
        status: 5,
        text: "read fault\n",
        entries: 0,
    },
    Case {
        call: Call {
            step: 64,
            failing_reads: &[2],
            ..RUN
        },
        changes: &[],
        status: 5,
        text: "read fault\n",
        entries: 0,
    },
    Case {
        call: Call {
            failing_writes: &[0],
            ..RUN
        },
        changes: &[],
        status: 6,
        text: "",
        entries: 0,
    },
    // The last cycle has run, and is not told.
    Case {
        call: Call {
            failing_writes: &[2],
            ..RUN
        },
        changes: &[],
        status: 6,
        text: BEGUN,
        entries: 80,
    },
];

/// Sources and sinks that fail.
pub fn faults() -> &'static [Case] {
    &FAULTS
}

static TRACED: Case = Case {
    call: Call {
        words: "run --trace",
        ..RUN
    },
    changes: &[],
    status: 0,
    text: "guards channels 4 cycles 2
cycle 0 active 0,1,2,3 transfer -
ch 0,1,2,3 in 5 vote 5 judged - alpha 0,0,0,0
trace 0,1,2,3 T
end removed - joined - remaining -
cycle 1 active 0,1,2,3 transfer -
ch 0,1,2,3 in 5 vote 10 judged - alpha 0,0,0,0
trace 0,1,2,3 T
end removed - joined - remaining -
done 2
",
    entries: 80,
};

/// A traced run in which each channel has one step in a cycle.
pub fn traced() -> &'static Case {
    &TRACED
}
