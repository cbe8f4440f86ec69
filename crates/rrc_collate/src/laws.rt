// SPDX-License-Identifier: MIT
ghost use Rattle.rrc_collate.specs.Lines.{EachLineStands};

/// Where the parts' histories are what the workers wrote, each part has of each line just the
/// operations that go there, one event each, in order of place. The function does nothing; its
/// contract is the law.
pub fn each_line_stands()
    ensures { EachLineStands }
{}
