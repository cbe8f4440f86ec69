// SPDX-License-Identifier: MIT
mod fakes;
mod faults;
mod names;
mod readers;
mod writers;
