// The states as words, in the order of their fields: floats by their bits, a NaN as 7fc00000; bools as 0 or 1; whole numbers in two's complement.
// Said anew and not taken from the faces, whose words are held against these.
pub(crate) trait Fields<const N: usize> {
    fn fields(self) -> [u32; N];
}

impl Fields<10> for variable_shape::State {
    fn fields(self) -> [u32; 10] {
        [
            floats::to_bits(self.master_phase),
            floats::to_bits(self.slave_phase),
            floats::to_bits(self.next_sample),
            floats::to_bits(self.previous_pw),
            block::one_if(self.high),
            floats::to_bits(self.master_frequency),
            floats::to_bits(self.slave_frequency),
            floats::to_bits(self.pw),
            floats::to_bits(self.waveshape),
            floats::to_bits(self.phase_modulation),
        ]
    }
}

impl Fields<7> for variable_saw::State {
    fn fields(self) -> [u32; 7] {
        [
            floats::to_bits(self.phase),
            floats::to_bits(self.next_sample),
            floats::to_bits(self.previous_pw),
            block::one_if(self.high),
            floats::to_bits(self.frequency),
            floats::to_bits(self.pw),
            floats::to_bits(self.waveshape),
        ]
    }
}

impl Fields<6> for super_square::State {
    fn fields(self) -> [u32; 6] {
        [
            floats::to_bits(self.master_phase),
            floats::to_bits(self.slave_phase),
            floats::to_bits(self.next_sample),
            block::one_if(self.high),
            floats::to_bits(self.master_frequency),
            floats::to_bits(self.slave_frequency),
        ]
    }
}

impl Fields<5> for nes_triangle::State {
    fn fields(self) -> [u32; 5] {
        [
            floats::to_bits(self.phase),
            floats::to_bits(self.next_sample),
            words::unsigned(self.step),
            block::one_if(self.ascending),
            floats::to_bits(self.frequency),
        ]
    }
}

impl Fields<8> for string_synth::State {
    fn fields(self) -> [u32; 8] {
        [
            floats::to_bits(self.phase),
            floats::to_bits(self.next_sample),
            words::unsigned(self.segment),
            floats::to_bits(self.frequency),
            floats::to_bits(self.saw_8_gain),
            floats::to_bits(self.saw_4_gain),
            floats::to_bits(self.saw_2_gain),
            floats::to_bits(self.saw_1_gain),
        ]
    }
}

impl Fields<9> for classic::State {
    fn fields(self) -> [u32; 9] {
        [
            floats::to_bits(self.phase),
            floats::to_bits(self.next_sample),
            floats::to_bits(self.lp_state),
            floats::to_bits(self.hp_state),
            block::one_if(self.high),
            floats::to_bits(self.frequency),
            floats::to_bits(self.pw),
            floats::to_bits(self.impulse_train_lp_coeff),
            floats::to_bits(self.impulse_train_gain),
        ]
    }
}

// The variable shape's state of any ten words. A word for `high` stands for true unless it is 0. Only two oscillators have a start of such words, each with
// fields of its own.
pub(crate) fn variable_shape_of(w: [u32; 10]) -> variable_shape::State {
    variable_shape::State {
        master_phase: floats::from_bits(w[0]),
        slave_phase: floats::from_bits(w[1]),
        next_sample: floats::from_bits(w[2]),
        previous_pw: floats::from_bits(w[3]),
        high: w[4] != 0,
        master_frequency: floats::from_bits(w[5]),
        slave_frequency: floats::from_bits(w[6]),
        pw: floats::from_bits(w[7]),
        waveshape: floats::from_bits(w[8]),
        phase_modulation: floats::from_bits(w[9]),
    }
}

// The classic's of any nine, likewise.
pub(crate) fn classic_of(w: [u32; 9]) -> classic::State {
    classic::State {
        phase: floats::from_bits(w[0]),
        next_sample: floats::from_bits(w[1]),
        lp_state: floats::from_bits(w[2]),
        hp_state: floats::from_bits(w[3]),
        high: w[4] != 0,
        frequency: floats::from_bits(w[5]),
        pw: floats::from_bits(w[6]),
        impulse_train_lp_coeff: floats::from_bits(w[7]),
        impulse_train_gain: floats::from_bits(w[8]),
    }
}
